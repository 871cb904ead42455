// Tables whose entries have numbers.
ghost use Rattle.std.specs.Prelude.{◌≡◌, ◌+◌, ◌<◌, ◌≤◌, length, IfOk, IfErr, OnOk, true};
ghost use Rattle.std.specs.List.{IsDistinct};
ghost use Rattle.mesh_solid.specs.declared.tables.fault.TableFault.TheVariants.{OutOfMemory};
ghost use Rattle.mesh_solid.specs.Tables.Numberings.{HasEntry, IsKeptOrPut};

use crate::tables::fault::TableFault;
use indexmap::IndexSet;
use std::hash::Hash;

/// The index of the entry in the table, which has fewer than 4,294,967,295 entries. Appends the
/// entry if it isn't there yet. Fails only if there is no memory.
pub fn number_of<T: Copy + Eq + Hash>(table: &mut IndexSet<T>, entry: T) -> Result<u32, TableFault>
    requires room { length table.old.keys < 4294967295 }
    ensures entries { OnOk result (IsKeptOrPut entry table.old.keys table.new.keys) }
    ensures number { IfOk result (λ n. HasEntry table.new.keys n (λ x. T.eq entry x ≡ true)) }
    ensures distinct { OnOk result (IsDistinct T.eq table.new.keys) }
    ensures fault { IfErr result (λ e. e ≡ OutOfMemory) }
{
    let (index, _is_new) = table.insert_full(entry)?;
    Ok(index as u32)
}
