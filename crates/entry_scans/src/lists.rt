//! Lists of ids.
ghost use Rattle.std.specs.Prelude.{◌↔◌, ℤ};
ghost use Rattle.std.specs.List.{Contains};
ghost use Rattle.entry_scans.specs.Lists.{IsAscending};

/// Puts ids into their order, each once.
pub fn put_in_order(ids: &mut Vec<i32>)
    ensures ascending { IsAscending ids.new.items }
    ensures same { (id : ℤ) → Contains ids.new.items id ↔ Contains ids.old.items id }
{
    ids.sort_unstable();
    ids.dedup();
}
