// Boxes drawn by the generator, and their triangles.
ghost use Rattle.std.specs.Prelude.{◌≡◌, ◌+◌, ◌*◌, ◌++◌, ℕ, OnOk};
ghost use Rattle.ember_gen.specs.Numbers.{state};
ghost use Rattle.ember_gen.specs.Blocks.{block_of, corner, quad, triangles_of};

use crate::numbers::Numbers;
use ember_model::{Corner, OutOfMemory, Tri};

// A box by its least and its greatest corner.
#[derive(Clone, Copy)]
pub struct Block {
    pub low: Corner,
    pub high: Corner,
}

/// The next box, by the next six numbers: three for the least corner, and three for the sides. Box
/// `i`, from 0, takes the numbers after the first `6 * i`.
pub fn next_block(numbers: &mut Numbers) -> Block
    ensures block { (i : ℕ) → numbers.old.last ≡ state (6 * i) → result ≡ block_of i }
    ensures next { (i : ℕ) → numbers.old.last ≡ state (6 * i) → numbers.new.last ≡ state (6 * (i + 1)) }
{
    let low = Corner {
        x: numbers.place(),
        y: numbers.place(),
        z: numbers.place(),
    };
    let high = Corner {
        x: low.x + numbers.side(),
        y: low.y + numbers.side(),
        z: low.z + numbers.side(),
    };
    Block { low, high }
}

// The corner with the x, the y and the z of these.
fn corner(x: &Corner, y: &Corner, z: &Corner) -> Corner
    ensures { result ≡ corner x.now.x y.now.y z.now.z }
{
    Corner {
        x: x.x,
        y: y.y,
        z: z.z,
    }
}

// The two triangles of a face with the corners a, b, c and d.
fn push_quad(
    tris: &mut Vec<Tri>,
    mesh: u32,
    a: Corner,
    b: Corner,
    c: Corner,
    d: Corner,
) -> Result<(), OutOfMemory>
    ensures { OnOk result (tris.new.items ≡ tris.old.items ++ quad mesh a b c d) }
{
    tris.push(Tri { a, b, c, mesh })?;
    tris.push(Tri {
        a,
        b: c,
        c: d,
        mesh,
    })?;
    Ok(())
}

/// Appends the twelve triangles of a box: those below, above, and around it.
pub fn push_block(block: &Block, mesh: u32, tris: &mut Vec<Tri>) -> Result<(), OutOfMemory>
    ensures { OnOk result (tris.new.items ≡ tris.old.items ++ triangles_of mesh block.now) }
{
    let (p, q) = (&block.low, &block.high);
    let (c1, c2) = (corner(p, p, p), corner(q, p, p));
    let (c3, c4) = (corner(q, q, p), corner(p, q, p));
    let (c5, c6) = (corner(p, p, q), corner(q, p, q));
    let (c7, c8) = (corner(q, q, q), corner(p, q, q));
    push_quad(tris, mesh, c1, c4, c3, c2)?;
    push_quad(tris, mesh, c5, c6, c7, c8)?;
    push_quad(tris, mesh, c1, c2, c6, c5)?;
    push_quad(tris, mesh, c2, c3, c7, c6)?;
    push_quad(tris, mesh, c3, c4, c8, c7)?;
    push_quad(tris, mesh, c4, c1, c5, c8)?;
    Ok(())
}
