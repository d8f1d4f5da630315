//! Entries in the order of their names.
ghost use Rattle.std.specs.Prelude.{◌≡◌, IfOk};
ghost use Rattle.vos_tool.specs.Ordering.{by_name};

use ubik_types::NoMemory;
use vldb_entries::VlEntry;

/// The entries in the order of their names' bytes; those of equal names keep their order.
pub fn by_name(entries: Vec<VlEntry>) -> Result<Vec<VlEntry>, NoMemory>
    ensures { IfOk result (λ sorted. sorted.items ≡ by_name entries.items) }
{
    let mut entries = entries;
    entries.sort_by(|one, other| one.name.as_slice().cmp(other.name.as_slice()))?;
    Ok(entries)
}
