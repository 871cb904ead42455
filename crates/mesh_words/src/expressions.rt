// The expressions of the commands that join meshes by an operator.
ghost use Rattle.std.specs.Prelude.{◌≡◌, ◌++◌, ◌≤◌, codes, decimal, IfOk, OnOk, string_bytes};
ghost use Rattle.mesh_words.specs.Values.{joined};

use itoa::Buffer;
use std::alloc::{AllocError, Global};

// Appends an operator and a mesh.
fn put_mesh(text: &mut String, operator: &str, mesh: usize) -> Result<(), AllocError>
    ensures { OnOk result (string_bytes text.new ≡ string_bytes text.old ++
        (operator.now ++ (codes "m" ++ decimal mesh))) }
{
    let mut buffer = Buffer::new();
    text.push_str(operator)?;
    text.push_str("m")?;
    text.push_str(buffer.format(mesh))
}

/// The meshes 1 to `more` + 1 joined by the operator, as in `m1|m2|m3`. `more` is at most 64.
pub fn joined(alloc: Global, operator: &str, more: usize) -> Result<String, AllocError>
    requires { more ≤ 64 }
    ensures { IfOk result (λ text. string_bytes text ≡ joined operator.now more) }
{
    let mut text = String::from_str(alloc, "m1")?;
    for before in 0..more {
        put_mesh(&mut text, operator, before + 2)?;
    }
    Ok(text)
}
