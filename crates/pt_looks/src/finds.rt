//! Entries and pairs as calls look for them, over a draft whose image may hold a state.
ghost use Rattle.std.specs.Prelude.{◌≡◌, ◌≤◌, IfOk, IfErr, IsErrOf};
ghost use Rattle.std.specs.Option.{option_map};
ghost use Rattle.db_blocks.specs.Ends.{OnlyLooks};
ghost use Rattle.prdb_layout.specs.RecordEnds.{seen};
ghost use Rattle.prdb_finds.specs.Ends.{HasItsCause};
ghost use Rattle.prdb_finds.specs.Keys.{id_chain};
ghost use Rattle.prdb_finds.specs.Places.{id_links};
ghost use Rattle.prdb_members.specs.Costs.{ListCosts};
ghost use Rattle.pt_service.specs.Costs.{CostsOneChain};
ghost use Rattle.pt_service.specs.Told.{IsGood};
ghost use Rattle.pt_looks.specs.States.{OfStates};

use db_image::{Draft, ImageRead, RecordFault};
use prdb_layout::PrEntry;
use prdb_members::has_pair;
use std::alloc::Global;

/// The entry of an id. Where the image has the one chain of the id, it asks for a word and each block of that chain at most.
pub fn entry_of<I: ImageRead>(
    alloc: Global,
    d: &mut Draft<I>,
    id: i32,
) -> Result<Option<PrEntry>, RecordFault>
    requires { d.old.len ≤ 16777216 }
    ensures found { IfOk result (λ found. OfStates d.old.bytes (λ s. option_map seen found ≡ s.registry.entry id)) }
    ensures good { IfOk result IsGood }
    ensures fault { IfErr result (HasItsCause d.old.bytes) }
    ensures frame { OnlyLooks I.ImageRead d.old d.new (IsErrOf result RecordFault.DiskFault) }
    ensures cost { CostsOneChain I.ImageRead id_links (id_chain id) d.old d.new }
{
    pt_service::entry_of_id(alloc, d, id)
}

/// Whether a user is in a group. It asks for what the list of the user does at most.
pub fn is_in<I: ImageRead>(
    alloc: Global,
    d: &mut Draft<I>,
    member: i32,
    group: i32,
) -> Result<bool, RecordFault>
    requires { d.old.len ≤ 16777216 }
    ensures found { IfOk result (λ is. OfStates d.old.bytes (λ s. is ≡ s.is_in member group)) }
    ensures fault { IfErr result (HasItsCause d.old.bytes) }
    ensures frame { OnlyLooks I.ImageRead d.old d.new (IsErrOf result RecordFault.DiskFault) }
    ensures cost { ListCosts I.ImageRead member d.old d.new }
{
    has_pair(alloc, d, member, group)
}
