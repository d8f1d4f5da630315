//! Laws of cells of 1 to 20 servers, over every run: each is the clause of a public call.
ghost use Rattle.cell_laws.specs.Laws.{CellsKeepLeases, EpochsRise, LeasesExclude};

use lease_model::law_rules_are_safe;

/// Whatever happens in a cell, its votes, leases and clocks are those of a run of the model of leases, by the rules of a cell.
pub fn law_cells_keep_leases()
    ensures { CellsKeepLeases }
{
    law_rules_are_safe();
}

/// In each cell, whatever happens, at most one server is in lease at a time.
pub fn law_leases_exclude()
    ensures { LeasesExclude }
{
    law_rules_are_safe();
}

/// In each cell, whatever happens, the epoch of each relabelling is above every epoch in the book before it.
pub fn law_epochs_rise()
    ensures { EpochsRise }
{
    law_rules_are_safe();
}
