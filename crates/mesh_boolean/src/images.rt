// The images of surfaces that are placed.
ghost use Rattle.std.specs.Prelude.{◌≡◌, ◌≤◌, length, All, IfOk, IfErr};
ghost use Rattle.mesh_grid.specs.Grid.Grids.{IsWithinLimit};
ghost use Rattle.mesh_boolean.specs.Images.{AreForEach, AreImages, AreLent, HasFlaw, HaveFlaw, HaveImageFault, IsImageIf, IsLent, IsImageFaultIf, of_image_fault};

use crate::fault::BooleanFault;
use mesh_place::TransformedSurface;
use mesh_placing::{ImageFault, Placing, image_by};
use mesh_read::{Surface, as_mesh};
use std::alloc::Global;

// The fault of the file with this index.
fn image_fault<'a>(index: usize, fault: ImageFault) -> BooleanFault<'a>
    requires { index ≤ 64 }
    ensures { result ≡ of_image_fault index fault }
{
    match fault {
        ImageFault::OutOfMemory => BooleanFault::OutOfMemory,
        fault => BooleanFault::Image(index as u32, fault),
    }
}

// The image of a surface, if it is placed.
fn image_if(
    alloc: Global,
    placing: &Option<Placing>,
    surface: &Surface,
) -> Result<Option<TransformedSurface>, ImageFault>
    ensures image { IfOk result (IsImageIf placing.now surface.now) }
    ensures fault { IfErr result (IsImageFaultIf placing.now surface.now) }
{
    match placing {
        None => Ok(None),
        Some(placing) => match image_by(alloc, placing, surface) {
            Ok(image) => Ok(Some(image)),
            Err(fault) => Err(fault),
        },
    }
}

/// The image of each surface for which there is a placing, in order; none at all if there is no placing.
pub fn images_of<'a>(
    alloc: Global,
    placings: &[Option<Placing>],
    surfaces: &[Surface],
) -> Result<Vec<Option<TransformedSurface>>, BooleanFault<'a>>
    requires few { length surfaces.now ≤ 64 }
    requires placings { AreForEach placings.now surfaces.now }
    ensures images { IfOk result (λ images. AreImages placings.now surfaces.now images.items) }
    ensures fault { IfErr result (HaveImageFault placings.now surfaces.now) }
{
    let mut images = Vec::with_capacity(alloc, placings.len())?;
    for (index, placing) in placings.iter().enumerate() {
        match image_if(alloc, placing, &surfaces[index]) {
            Ok(image) => images.push(image)?,
            Err(fault) => return Err(image_fault(index, fault)),
        }
    }
    Ok(images)
}

// The image as a surface that borrows its digits, if there is one; otherwise the surface itself.
fn given_surface<'s: 'i, 'i>(
    alloc: Global,
    surface: Surface<'s>,
    image: &'i Option<TransformedSurface>,
) -> Result<Surface<'i>, ImageFault>
    requires { IsWithinLimit surface }
    ensures lent { IfOk result (IsLent image.now surface.entry) }
    ensures within { IfOk result IsWithinLimit }
    ensures fault { IfErr result (HasFlaw image.now) }
{
    let Some(image) = image else {
        return Ok(surface);
    };
    let lent = image.surface(alloc)?;
    match as_mesh(lent) {
        Ok(mesh) => Ok(mesh),
        Err(flaw) => Err(ImageFault::Flaw(flaw)),
    }
}

/// The images as surfaces that borrow their digits; where there is none, the surface itself. If there
/// are no images at all, these are the surfaces.
pub fn given_surfaces<'s: 'i, 'i, 'f>(
    alloc: Global,
    surfaces: Vec<Surface<'s>>,
    images: &'i [Option<TransformedSurface>],
) -> Result<Vec<Surface<'i>>, BooleanFault<'f>>
    requires few { length surfaces.items ≤ 64 }
    requires images { AreForEach images.now surfaces.items }
    requires within { All IsWithinLimit surfaces.items }
    ensures lent { IfOk result (λ given. AreLent images.now surfaces.entry.items given.items) }
    ensures within { IfOk result (λ given. All IsWithinLimit given.items) }
    ensures fault { IfErr result (HaveFlaw images.now) }
{
    if images.is_empty() {
        return Ok(surfaces);
    }
    let mut rest = surfaces;
    let mut given = Vec::with_capacity(alloc, images.len())?;
    for (index, image) in images.iter().enumerate() {
        let surface = rest.remove(0);
        match given_surface(alloc, surface, image) {
            Ok(surface) => given.push(surface)?,
            Err(fault) => return Err(image_fault(index, fault)),
        }
    }
    Ok(given)
}
