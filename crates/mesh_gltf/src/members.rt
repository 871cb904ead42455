// Members of JSON objects.
ghost use Rattle.std.specs.Prelude.{◌≡◌, ◌⊎◌, ◌++◌, ◌<◌, ◌^◌, None, Some, MatchOption, IfSome, OnOk, IfErr};
ghost use Rattle.std.specs.Option.{option_map};
ghost use Rattle.serde_json.specs.View.{view, items_view};
ghost use Rattle.mesh_gltf.specs.Members.{natural, natural_at, natural_or, item_in, naturals, naturals_at};

use serde_json::Value;
use std::alloc::AllocError;

// A natural number below 2^32.
pub(crate) fn natural(value: &Value) -> Option<u32>
    ensures { result ≡ natural (view value.now) }
{
    let number = value.as_u64()?;
    if number > u64::from(u32::MAX) {
        return None;
    }
    Some(number as u32)
}

// The member of this name, a natural number.
#[tactic(auto, unfolding(crate::specs::Members::natural_at))]
pub(crate) fn natural_at(value: &Value, key: &str) -> Option<u32>
    ensures { result ≡ natural_at key.now (view value.now) }
{
    natural(value.get(key)?)
}

// The same, where a member that is missing stands for a number.
#[tactic(auto, unfolding(crate::specs::Members::natural_or))]
pub(crate) fn natural_or(value: &Value, key: &str, missing: u32) -> Option<u32>
    ensures { result ≡ natural_or missing key.now (view value.now) }
{
    match value.get(key) {
        Some(member) => natural(member),
        None => Some(missing),
    }
}

// The item of an array in the member of this name.
#[tactic(auto, unfolding(crate::specs::Members::item_in))]
pub(crate) fn item_in<'v>(value: &'v Value, key: &str, index: u32) -> Option<&'v Value>
    ensures { option_map (λ v. view v.now) result ≡ item_in key.now index (view value.now) }
{
    value.get(key)?.get(index as usize)
}
