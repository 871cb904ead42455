// The bytes of a page.
ghost use Rattle.std.specs.Prelude.{◌≡◌, ◌++◌, IfOk, OnOk};
ghost use Rattle.mesh_info.specs.Page.Pages.{back_of, front_of, page_of};
ghost use Rattle.mesh_info.specs.Page.ReadBack.{IsReadBack};

use crate::page::counts::COUNTS;
use crate::page::drawing::DRAWING;
use crate::page::head::{CONTROLS, FILES, HEAD, PANEL};
use crate::page::texts::{files_text, numbers_text, put_escaped, put_items};
use ember_words::Text;
use mesh_write::FloatTriangle;
use std::alloc::{AllocError, Global};

// Appends what stands before the corners: the title, and the names of the files.
fn put_front(title: &[u8], names: &[Text], page: &mut Vec<u8>) -> Result<(), AllocError>
    ensures { OnOk result (page.new.items ≡ page.old.items ++ front_of title.now names.now) }
{
    page.extend_from_slice(HEAD)?;
    put_escaped(title, page)?;
    page.extend_from_slice(PANEL)?;
    put_items(names, page)?;
    page.extend_from_slice(CONTROLS)
}

// Appends the corners and the numbers of their files, and the script that shows them.
fn put_back(corners: &[u8], files: &[u8], page: &mut Vec<u8>) -> Result<(), AllocError>
    ensures { OnOk result (page.new.items ≡ page.old.items ++ back_of corners.now files.now) }
{
    page.extend_from_slice(corners)?;
    page.extend_from_slice(FILES)?;
    page.extend_from_slice(files)?;
    page.extend_from_slice(COUNTS)?;
    page.extend_from_slice(DRAWING)
}

/// The page that shows these triangles under this title. It refers to nothing outside, and draws by
/// WebGL: shaded, with the back of faces in another colour, edges of more than 20 degrees, all
/// triangles on demand, see-through, a section plane, and the counts. The mouse turns, zooms and moves
/// it, and two clicks give a distance. The title and the names may be any bytes; a browser reads them
/// as UTF-8.
///
/// `files` has the number of each triangle's file, from 1, in the order of the names; 0 if it isn't
/// known. If there are two names or more, each file has its colour, and the page has a key to them.
/// The page takes a number that is lacking, has no name or is above 255 for 0.
///
/// The coordinates and these numbers stand in it in base64; the two texts, decoded, give the corners
/// and the numbers again. The one error is out-of-memory.
pub fn page_bytes(
    alloc: Global,
    title: &[u8],
    names: &[Text],
    triangles: &[FloatTriangle],
    files: &[usize],
) -> Result<Vec<u8>, AllocError>
    ensures page { IfOk result (λ page. page.items ≡ page_of title.now names.now triangles.now files.now) }
    ensures read_back { IfOk result (λ page. IsReadBack triangles.now files.now page.items) }
{
    let corner_text = numbers_text(alloc, triangles)?;
    let file_text = files_text(alloc, files)?;
    let mut page = Vec::new(alloc);
    put_front(title, names, &mut page)?;
    put_back(corner_text.as_bytes(), file_text.as_bytes(), &mut page)?;
    Ok(page)
}
