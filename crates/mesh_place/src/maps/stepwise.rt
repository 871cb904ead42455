// The map of steps, each applied after those before it.
ghost use Rattle.std.specs.Prelude.{◌≡◌, false, None, IfOk, IfErr};
ghost use Rattle.mesh_place.specs.AffineMaps.{affine_of, is_flattening};
ghost use Rattle.mesh_place.specs.Steps.{IsMapOfSteps, IsFaultOf, fault_from};

use crate::exact::readings::MOST;
use crate::maps::matrices::AffineMap;
use crate::maps::step_maps::map_of_step;
use crate::maps::steps::{Step, StepsFault, is_short_step, places_of_step};
use std::alloc::{AllocError, Global};

/// The map of the steps, applied one after another. It keeps space: it makes nothing flat.
pub fn map_of_steps(alloc: Global, steps: &[Step]) -> Result<AffineMap, StepsFault>
    ensures map { IfOk result (λ a. IsMapOfSteps steps.now (affine_of a)) }
    ensures space { IfOk result (λ a. is_flattening (affine_of a) ≡ false) }
    ensures ok { IfOk result (λ _. fault_from 0 0 steps.now ≡ None) }
    ensures fault { IfErr result (λ e. IsFaultOf steps.now e) }
{
    let mut all = AffineMap::identity(alloc)?;
    for (number, step) in steps.iter().enumerate() {
        if !is_short_step(step) {
            return Err(StepsFault::TooLong(number));
        }
        if all.places + places_of_step(step) > MOST {
            return Err(StepsFault::TooFine(number));
        }
        let map = map_of_step(alloc, step)?;
        let flat = map.is_flattening(alloc)?;
        if flat {
            return Err(StepsFault::Flat(number));
        }
        let next = map.after(alloc, &all)?;
        all = next;
    }
    Ok(all)
}
