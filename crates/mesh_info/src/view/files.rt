// The number of each triangle's file.
ghost use Rattle.std.specs.Prelude.{◌≡◌, ◌++◌, map, IfOk, OnOk};
ghost use Rattle.mesh_info.specs.View.Views.{files_of, of_file};

use mesh_read::{Facet, Surface};
use std::alloc::{AllocError, Global};

// Appends the number of a file for each of its triangles.
fn put_number(number: usize, facets: &[Facet], files: &mut Vec<usize>) -> Result<(), AllocError>
    ensures { OnOk result (files.new.items ≡ files.old.items ++ map (of_file number) facets.now) }
{
    for _facet in facets {
        files.push(number)?;
    }
    Ok(())
}

// The number of the file of each triangle of the surfaces, one surface after another.
pub(crate) fn files_of(alloc: Global, surfaces: &[Surface]) -> Result<Vec<usize>, AllocError>
    ensures { IfOk result (λ files. files.items ≡ files_of surfaces.now) }
{
    let mut files = Vec::new(alloc);
    for (index, surface) in surfaces.iter().enumerate() {
        put_number(index + 1, &surface.facets, &mut files)?;
    }
    Ok(files)
}
