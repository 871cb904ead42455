// Which names are of the same path.
ghost use Rattle.std.specs.Prelude.{◌≡◌, ◌∷◌, ◌&&◌, List, ℕ};
ghost use Rattle.std.specs.Path.{components_remaining};
ghost use Rattle.mesh_words.specs.Paths.{components_of, are_same, is_same_path};

use std::path::{Components, Path};

// The components of the path, without `.`.
fn components_of(path: &str) -> Components<'_>
    ensures { components_remaining result ≡ components_of path.now }
{
    let mut others = Path::new(path).components();
    if let Some(first) = others.next() {
        if first.as_os_str() == "." {
            return others;
        }
    }
    Path::new(path).components()
}

// Takes the next component. Whether it is this one.
fn next_is(components: &mut Components<'_>, expected: &str) -> bool
    ensures { (others : List (List ℕ)) → are_same (expected.now ∷ others) (components_remaining components.old) ≡
        (result && are_same others (components_remaining components.new)) }
{
    match components.next() {
        Some(component) => component.as_os_str() == expected,
        None => false,
    }
}

/// Whether the names are of the same path. Neither `.` nor the number of slashes counts; `..` is a
/// component as any other.
pub fn is_same_path(one: &str, other: &str) -> bool
    ensures { result ≡ is_same_path one.now other.now }
{
    let mut others = components_of(other);
    for component in components_of(one) {
        if !next_is(&mut others, component.as_os_str()) {
            return false;
        }
    }
    others.next().is_none()
}
