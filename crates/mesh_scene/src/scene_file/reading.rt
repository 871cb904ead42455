// The grid of a scene file.
ghost use Rattle.std.specs.Prelude.{◌≡◌, IfSome, IfNone, IfOk, IfErr};
ghost use Rattle.mesh_grid.specs.declared.grid.grid.Grid.{Grid};
ghost use Rattle.mesh_grid.specs.declared.snap.steps.GridStep.{GridStep};
ghost use Rattle.serde_json.specs.View.{view, items_view};
ghost use Rattle.mesh_scene.specs.SceneFile.Scenes.{whole_in, offset_of, offset_in, IsStepIn, IsGridIn, IsSceneOf, IsFault};

use crate::scene_file::fault::SceneFileFault;
use crate::scene_file::numbers::step_in;
use mesh_grid::{Grid, GridStep, Offset};
use serde_json::Value;
use std::alloc::Global;

// The member `step`, if it spells a step.
fn step_of(value: &Value) -> Option<GridStep>
    ensures some { IfSome result (IsStepIn (view value.now)) }
    ensures none { IfNone result ((s : GridStep) → IsStepIn (view value.now) s → ⊥) }
{
    let text = value.get("step")?.as_str()?;
    step_in(text)
}

fn whole_of(value: &Value) -> Option<i128>
    ensures { result ≡ whole_in (view value.now) }
{
    let number = value.as_i64()?;
    Some(i128::from(number))
}

// The items as an offset, if they are three whole numbers.
#[tactic(auto, using(crate::proofs::Offsets::few_items, crate::proofs::Offsets::many_items))]
fn offset_from(items: &[Value]) -> Option<Offset>
    ensures { result ≡ offset_of (items_view items.now) }
{
    let [x, y, z] = items else {
        return None;
    };
    Some(Offset {
        x: whole_of(x)?,
        y: whole_of(y)?,
        z: whole_of(z)?,
    })
}

// The member `offset` as an offset.
fn offset_of(value: &Value) -> Option<Offset>
    ensures { result ≡ offset_in (view value.now) }
{
    offset_from(value.get("offset")?.as_array()?)
}

fn grid_of(value: &Value) -> Option<Grid>
    ensures some { IfSome result (IsGridIn (view value.now)) }
    ensures none { IfNone result ((g : Grid) → IsGridIn (view value.now) g → ⊥) }
{
    Some(Grid {
        step: step_of(value)?,
        offset: offset_of(value)?,
    })
}

/// The grid of a scene file: any object of JSON whose member `step` is a text `n/d` of two numbers
/// from 1 to 2^40 - 1, without signs and leading zeros, and whose member `offset` is an array of
/// three whole numbers from -2^63 to 2^63 - 1. Other members are passed over. Arrays and objects
/// nest at most 127 deep.
pub fn read_grid(alloc: Global, bytes: &[u8]) -> Result<Grid, SceneFileFault>
    ensures grid { IfOk result (IsSceneOf bytes.now) }
    ensures fault { IfErr result (IsFault bytes.now) }
{
    match Value::from_slice(alloc, bytes) {
        Ok(value) => match grid_of(&value) {
            Some(grid) => Ok(grid),
            None => Err(SceneFileFault::NotAScene),
        },
        Err(error) if error.is_memory() => Err(SceneFileFault::OutOfMemory),
        Err(_) => Err(SceneFileFault::NotAScene),
    }
}
