// Steps as fractions.
ghost use Rattle.std.specs.Prelude.{◌≡◌, ◌<◌, ◌^◌, ◌++◌, ℕ, IfSome, IfNone, OnOk, decimal};
ghost use Rattle.mesh_grid.specs.declared.snap.steps.GridStep.{GridStep};
ghost use Rattle.mesh_grid.specs.Snap.Steps.{IsStep};
ghost use Rattle.mesh_scene.specs.SceneFile.Fractions.{fraction_text, IsPart, IsStepText, IsInLowestTerms};

use ember_algebra::gcd;
use ember_model::OutOfMemory;
use itoa::Buffer;
use mesh_grid::GridStep;

// The least number that is too large for a part of a step.
const LIMIT: u64 = 1 << 40;

// The number that the text spells, if it is a part of a step.
fn part_in(text: &str) -> Option<u64>
    ensures some { IfSome result (IsPart text.now) }
    ensures none { IfNone result ((n : ℕ) → IsPart text.now n → ⊥) }
{
    let Ok(number) = text.parse::<u64>() else {
        return None;
    };
    if number == 0 || number >= LIMIT {
        return None;
    }
    // Signs and leading zeros are refused: the number has one spelling.
    let mut buffer = Buffer::new();
    if buffer.format(number) == text {
        Some(number)
    } else {
        None
    }
}

/// The step that the text spells as `n/d`, if it is in range.
pub fn step_in(text: &str) -> Option<GridStep>
    ensures some { IfSome result (IsStepText text.now) }
    ensures none { IfNone result ((s : GridStep) → IsStepText text.now s → ⊥) }
{
    let (numerator, denominator) = text.split_once('/')?;
    Some(GridStep {
        numerator: part_in(numerator)?,
        denominator: part_in(denominator)?,
    })
}

/// The same step in lowest terms.
pub fn lowest(step: &GridStep) -> GridStep
    requires { IsStep step.now }
    ensures { IsInLowestTerms step.now result }
{
    let divisor = gcd(step.numerator, step.denominator);
    GridStep {
        numerator: step.numerator / divisor,
        denominator: step.denominator / divisor,
    }
}

fn put_part(part: u64, text: &mut Vec<u8>) -> Result<(), OutOfMemory>
    ensures { OnOk result (text.new.items ≡ text.old.items ++ decimal part) }
{
    let mut buffer = Buffer::new();
    text.extend_from_slice(buffer.format(part).as_bytes())
}

/// Appends the step as `n/d`.
pub fn put_fraction(step: &GridStep, text: &mut Vec<u8>) -> Result<(), OutOfMemory>
    ensures { OnOk result (text.new.items ≡ text.old.items ++ fraction_text step.now) }
{
    put_part(step.numerator, text)?;
    text.extend_from_slice(b"/")?;
    put_part(step.denominator, text)
}
