// Where the elements of an accessor are.
ghost use Rattle.std.specs.Prelude.{◌≡◌, ◌≤◌, ◌<◌, ◌^◌, ◌+◌, ◌*◌, ◌-◌, true, false, length, Ok, Err, Some, None, IfSome, IfOk, IfErr};
ghost use Rattle.serde_json.specs.View.{view};
ghost use Rattle.mesh_gltf.specs.Windows.{window_in, window_of, is_inside, is_kind, dense_window};

use crate::fault::GltfFault;
use crate::members::{item_in, natural_at, natural_or};
use serde_json::Value;

// So many elements in a buffer: the first begins at `start`, each further one `stride` bytes later,
// and the last ends at `end` or before.
#[derive(Clone, Copy)]
pub(crate) struct Window {
    pub buffer: u32,
    pub start: u64,
    pub end: u64,
    pub stride: u32,
    pub count: u32,
}

// The elements of an accessor in this view of a buffer. Each has so many bytes.
#[tactic(auto, unfolding(crate::specs::Windows::window_in))]
fn window_in(size: u32, accessor: &Value, place: &Value) -> Option<Window>
    ensures { result ≡ window_in size (view accessor.now) (view place.now) }
{
    let buffer = natural_at(place, "buffer")?;
    let begin = u64::from(natural_or(place, "byteOffset", 0)?);
    let room = u64::from(natural_at(place, "byteLength")?);
    let stride = natural_or(place, "byteStride", size)?;
    let offset = u64::from(natural_or(accessor, "byteOffset", 0)?);
    let count = natural_at(accessor, "count")?;
    Some(Window {
        buffer,
        start: begin + offset,
        end: begin + room,
        stride,
        count,
    })
}

// The elements of an accessor of a document.
#[tactic(auto, unfolding(crate::specs::Windows::window_of))]
fn window_of(size: u32, document: &Value, accessor: &Value) -> Option<Window>
    ensures { result ≡ window_of size (view document.now) (view accessor.now) }
{
    let index = natural_at(accessor, "bufferView")?;
    window_in(size, accessor, item_in(document, "bufferViews", index)?)
}

// Whether all elements of this size are in the view, and the view in the buffer.
#[tactic(auto, unfolding(crate::specs::Windows::is_inside))]
pub(crate) fn is_inside(size: u32, window: Window, bytes: &[u8]) -> bool
    ensures { result ≡ is_inside size window bytes.now }
{
    if window.end > bytes.len() as u64 || window.stride < size {
        return false;
    }
    if window.count == 0 {
        return true;
    }
    let last = u128::from(window.stride) * u128::from(window.count - 1);
    u128::from(window.start) + last + u128::from(size) <= u128::from(window.end)
}

// Whether the accessor has elements of this type, of numbers of this type.
#[tactic(auto, unfolding(crate::specs::Windows::is_kind))]
pub(crate) fn is_kind(shape: &str, component: u32, accessor: &Value) -> bool
    ensures { result ≡ is_kind shape.now component (view accessor.now) }
{
    let Some(text) = accessor.get("type").and_then(Value::as_str) else {
        return false;
    };
    text == shape && natural_at(accessor, "componentType") == Some(component)
}

// The elements of the accessor with this index, which isn't sparse.
#[tactic(auto, unfolding(crate::specs::Windows::dense_window))]
pub(crate) fn dense_window(
    size: u32,
    index: u32,
    document: &Value,
    accessor: &Value,
) -> Result<Window, GltfFault>
    ensures ok { IfOk result (λ w. dense_window size index (view document.now) (view accessor.now) ≡ Ok w) }
    ensures fault { IfErr result (λ e. dense_window size index (view document.now) (view accessor.now) ≡ Err e) }
{
    if accessor.get("sparse").is_some() {
        return Err(GltfFault::Sparse(index));
    }
    match window_of(size, document, accessor) {
        Some(window) => Ok(window),
        None => Err(GltfFault::Accessor(index)),
    }
}
