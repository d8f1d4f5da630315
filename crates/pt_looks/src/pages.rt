//! The call that lists entries of a kind, over a draft.
ghost use Rattle.std.specs.Prelude.{◌≡◌, ◌+◌, ◌*◌, ◌≤◌, true, IfOk, IfErr, IsErrOf, length, map};
ghost use Rattle.std.specs.List.{AllByRecursion};
ghost use Rattle.db_image.specs.Ends.{IsDecided};
ghost use Rattle.db_blocks.specs.Ends.{OnlyLooks};
ghost use Rattle.db_blocks.specs.declared.blocks.TheConstants.{BLOCK_LEN};
ghost use Rattle.db_chains.specs.Ends.{CostsAtMost};
ghost use Rattle.entry_scans.specs.Views.{viewed};
ghost use Rattle.prdb_finds.specs.Ends.{HasItsCause};
ghost use Rattle.pt_calls.specs.declared.limits.TheConstants.{MAX_PAGE};
ghost use Rattle.pt_service.specs.Meaning.{are_kinds, is_of_kinds, page};
ghost use Rattle.pt_looks.specs.Ends.{IsUnless};
ghost use Rattle.pt_looks.specs.Pages.{HasShortName, fits_in, page_of, told_in};
ghost use Rattle.pt_looks.specs.States.{IsToldOf, OfStates};

use crate::entries::told_in;
use call_grammar::Items;
use db_blocks::Block;
use db_image::{CallEnd, Draft, ImageRead, RecordFault};
use entry_scans::{EntryView, Sought};
use prdb_scans::first_where;
use pt_calls::{Entries, MAX_PAGE, PtAnswer, PtEntry};
use pt_service::{BAD_ARGUMENT, is_group, tell};
use std::alloc::Global;

/// What stands for users where kinds are asked for.
const USERS: u32 = 1;

/// What stands for groups where kinds are asked for.
const GROUPS: u32 = 2;

/// What stands for both.
const BOTH: u32 = USERS | GROUPS;

/// Whether a number names kinds: 1 users, 2 groups, 3 both.
fn are_kinds(kinds: u32) -> bool
    ensures { result ≡ are_kinds kinds }
{
    kinds == USERS || kinds == GROUPS || kinds == BOTH
}

/// Whether an entry is of the kinds that a number names.
fn is_of_kinds(kinds: u32, e: EntryView<'_>) -> bool
    ensures { result ≡ is_of_kinds kinds (viewed e.entry) }
{
    let kind = if is_group(e.id) { GROUPS } else { USERS };
    kinds & kind != 0
}

/// What a page lists: the entries of these kinds with an id above one.
#[derive(Clone, Copy)]
struct Listed {
    kinds: u32,
    after: i32,
}

impl Sought for Listed {
    ghost use Rattle.pt_service.specs.Meaning.{is_listed};

    ghost test = { λ s e. is_listed s.kinds s.after e };

    fn is_met(&self, e: EntryView<'_>) -> bool {
        e.id > self.after && is_of_kinds(self.kinds, e)
    }
}

/// The entries in blocks as an answer has them.
fn entries_in(alloc: Global, blocks: &[Block], at: u32) -> Result<Vec<PtEntry>, RecordFault>
    ensures told { IfOk result (λ entries. entries.items ≡ map told_in blocks.now) }
    ensures short { IfOk result (λ entries. AllByRecursion HasShortName entries.items) }
    ensures fault { IfErr result (IsUnless (AllByRecursion (λ b. fits_in b ≡ true) blocks.now)) }
{
    let mut entries = Vec::new(alloc);
    for block in blocks {
        let entry = told_in(alloc, block, at)?;
        entries.push(entry)?;
    }
    Ok(entries)
}

/// The first hundred entries of these kinds with an id above one, ascending by it. All blocks are read once, and those that are given once
/// more.
fn page<I: ImageRead>(
    alloc: Global,
    d: &mut Draft<I>,
    kinds: u32,
    after: i32,
) -> Result<Entries, RecordFault>
    requires { d.old.len ≤ 16777216 }
    ensures found { IfOk result (λ found. OfStates d.old.bytes (λ s. found ≡ page_of s kinds after)) }
    ensures short { IfOk result (AllByRecursion HasShortName) }
    ensures count { IfOk result (λ found. length found ≤ MAX_PAGE) }
    ensures fault { IfErr result (HasItsCause d.old.bytes) }
    ensures frame { OnlyLooks I.ImageRead d.old d.new (IsErrOf result RecordFault.DiskFault) }
    ensures cost { CostsAtMost I.ImageRead (d.old.len + BLOCK_LEN * MAX_PAGE) d.old d.new }
{
    let wanted = Listed { kinds, after };
    let blocks = first_where(alloc, d, &wanted, MAX_PAGE as usize)?;
    let entries = entries_in(alloc, &blocks, d.len())?;
    Ok(Items::new(entries))
}

/// Tells the first hundred entries with an id above one, ascending by it. `kinds`: 1 users, 2 groups, 3 both.
/// It asks for the image once, and for the blocks of the entries that it tells.
pub fn list_entries<I: ImageRead>(
    alloc: Global,
    d: &mut Draft<I>,
    kinds: u32,
    after: i32,
) -> Result<CallEnd, RecordFault>
    requires { d.old.len ≤ 16777216 }
    ensures meant { IfOk result (IsToldOf d.old.bytes (λ s. page s kinds after)) }
    ensures short { IfOk result IsDecided }
    ensures fault { IfErr result (HasItsCause d.old.bytes) }
    ensures frame { OnlyLooks I.ImageRead d.old d.new (IsErrOf result RecordFault.DiskFault) }
    ensures cost { CostsAtMost I.ImageRead (d.old.len + BLOCK_LEN * MAX_PAGE) d.old d.new }
{
    if !are_kinds(kinds) {
        return Ok(CallEnd::Rule(BAD_ARGUMENT));
    }
    let entries = page(alloc, d, kinds, after)?;
    let end = tell(alloc, &PtAnswer::Entries(entries))?;
    Ok(end)
}
