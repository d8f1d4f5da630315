//! The calls that look for an entry and its pairs, over a draft.
ghost use Rattle.std.specs.Prelude.{◌≡◌, ◌≢◌, ◌≤◌, pos, filter, length, is_none, IfOk, IfErr, IsErrOf};
ghost use Rattle.std.specs.Option.{option_map};
ghost use Rattle.db_image.specs.Ends.{IsDecided, end_of};
ghost use Rattle.db_blocks.specs.Ends.{OnlyLooks};
ghost use Rattle.db_chains.specs.Ends.{CostsAtMost};
ghost use Rattle.prdb_finds.specs.Ends.{HasItsCause};
ghost use Rattle.prdb_finds.specs.Keys.{id_chain};
ghost use Rattle.prdb_finds.specs.Places.{id_links};
ghost use Rattle.pt_calls.specs.declared.answers.PtAnswer.TheVariants as answer;
ghost use Rattle.pt_service.specs.Costs.{CostsOneChain};
ghost use Rattle.pt_service.specs.Meaning.{Answers, Verdict, counts_for, of_entry, of_pair, owned, reply_by, told_of, unless};
ghost use Rattle.pt_service.specs.State.{elements, ids};
ghost use Rattle.pt_looks.specs.Costs.{CostsEntryAndList, CostsOwned, CostsTwoAndList, CostsTwoChains};
ghost use Rattle.pt_looks.specs.Ends.{IsTooMany};
ghost use Rattle.pt_looks.specs.Owned.{AreOwned};
ghost use Rattle.pt_looks.specs.States.{IsToldOf, OfStates};

use crate::entries::told_of_id;
use crate::finds::{entry_of, is_in};
use call_grammar::Items;
use db_image::{CallEnd, Draft, ImageRead, RecordFault};
use entry_scans::{EntryView, Sought};
use prdb_finds::owned_ids;
use prdb_members::{cps, elements};
use prdb_scans::ids_where;
use pt_calls::{MAX_ANSWER_IDS, PtAnswer};
use pt_service::{NO_ENTRY, NOT_GROUP, NOT_USER, is_group, tell};
use std::alloc::Global;

/// Tells ids. No image holds more of them than an answer may have: a longer list is a bad record, at this position.
fn tell_ids(alloc: Global, ids: Vec<i32>, at: u32) -> Result<CallEnd, RecordFault>
    ensures told { IfOk result (λ end. end ≡ end_of (reply_by (Answers (answer.Ids ids.items)))) }
    ensures short { IfOk result IsDecided }
    ensures fault { IfErr result (IsTooMany (length ids.items)) }
{
    if ids.len() > MAX_ANSWER_IDS as usize {
        return Err(RecordFault::BadRecord { at });
    }
    let answer = PtAnswer::Ids(Items::new(ids));
    let end = tell(alloc, &answer)?;
    Ok(end)
}

/// Tells the entry of an id, with the number of its pairs, which its block tells. Where the image has the one chain of the id, it asks for
/// a word and each block of that chain at most.
pub fn list_entry<I: ImageRead>(
    alloc: Global,
    d: &mut Draft<I>,
    id: i32,
) -> Result<CallEnd, RecordFault>
    requires { d.old.len ≤ 16777216 }
    ensures meant { IfOk result (IsToldOf d.old.bytes (λ s. of_entry (s.registry.entry id) (λ e. Answers (answer.Entry (told_of s e))))) }
    ensures short { IfOk result IsDecided }
    ensures fault { IfErr result (HasItsCause d.old.bytes) }
    ensures frame { OnlyLooks I.ImageRead d.old d.new (IsErrOf result RecordFault.DiskFault) }
    ensures cost { CostsOneChain I.ImageRead id_links (id_chain id) d.old d.new }
{
    let Some(entry) = told_of_id(alloc, d, id)? else {
        return Ok(CallEnd::Rule(NO_ENTRY));
    };
    let end = tell(alloc, &PtAnswer::Entry(entry))?;
    Ok(end)
}

/// Whether no entry has an id.
pub fn is_unknown<I: ImageRead>(
    alloc: Global,
    d: &mut Draft<I>,
    id: i32,
) -> Result<bool, RecordFault>
    requires { d.old.len ≤ 16777216 }
    ensures found { IfOk result (λ unknown. OfStates d.old.bytes (λ s. unknown ≡ is_none (s.registry.entry id))) }
    ensures fault { IfErr result (HasItsCause d.old.bytes) }
    ensures frame { OnlyLooks I.ImageRead d.old d.new (IsErrOf result RecordFault.DiskFault) }
    ensures cost { CostsOneChain I.ImageRead id_links (id_chain id) d.old d.new }
{
    Ok(entry_of(alloc, d, id)?.is_none())
}

/// Tells the groups in which a user is, or the users in a group, ascending. It walks twice along the chain of the id, and reads the list of
/// the entry.
pub fn list_elements<I: ImageRead>(
    alloc: Global,
    d: &mut Draft<I>,
    id: i32,
) -> Result<CallEnd, RecordFault>
    requires { d.old.len ≤ 16777216 }
    ensures meant { IfOk result (IsToldOf d.old.bytes (λ s. of_entry (s.registry.entry id) (λ e. Answers (answer.Ids (elements s id))))) }
    ensures short { IfOk result IsDecided }
    ensures fault { IfErr result (HasItsCause d.old.bytes) }
    ensures frame { OnlyLooks I.ImageRead d.old d.new (IsErrOf result RecordFault.DiskFault) }
    ensures cost { CostsEntryAndList I.ImageRead id d.old d.new }
{
    if is_unknown(alloc, d, id)? {
        return Ok(CallEnd::Rule(NO_ENTRY));
    }
    let ids = elements(alloc, d, id)?;
    tell_ids(alloc, ids.into_vec(), d.len())
}

/// Tells the ids for which an entry counts, ascending: its own, and for a user its groups and those in which each user is. It asks for what
/// `list_elements` does at most.
pub fn get_cps<I: ImageRead>(
    alloc: Global,
    d: &mut Draft<I>,
    id: i32,
) -> Result<CallEnd, RecordFault>
    requires { d.old.len ≤ 16777216 }
    ensures meant { IfOk result (IsToldOf d.old.bytes (λ s. of_entry (s.registry.entry id)
        (λ e. Answers (answer.Ids (filter (counts_for s id) ids))))) }
    ensures short { IfOk result IsDecided }
    ensures fault { IfErr result (HasItsCause d.old.bytes) }
    ensures frame { OnlyLooks I.ImageRead d.old d.new (IsErrOf result RecordFault.DiskFault) }
    ensures cost { CostsEntryAndList I.ImageRead id d.old d.new }
{
    if is_unknown(alloc, d, id)? {
        return Ok(CallEnd::Rule(NO_ENTRY));
    }
    let ids = cps(alloc, d, id)?;
    tell_ids(alloc, ids.into_vec(), d.len())
}

/// The groups that have no owner.
#[derive(Clone, Copy)]
struct Unowned;

impl Sought for Unowned {
    ghost use Rattle.std.specs.Prelude.{pos};
    ghost use Rattle.pt_service.specs.Meaning.{is_owned_by};

    ghost test = { λ s e. is_owned_by (pos 0) e };

    fn is_met(&self, e: EntryView<'_>) -> bool {
        is_group(e.id) && e.owner == 0
    }
}

/// The groups that an entry owns, ascending, found by their own chain; for the id 0 those that have no owner, found in a pass over the
/// blocks. None of an id that is neither 0 nor an entry's.
fn owned<I: ImageRead>(
    alloc: Global,
    d: &mut Draft<I>,
    id: i32,
) -> Result<Option<Vec<i32>>, RecordFault>
    requires { d.old.len ≤ 16777216 }
    ensures found { IfOk result (λ found. OfStates d.old.bytes (λ s. AreOwned s.registry id (option_map (λ ids. ids.items) found))) }
    ensures fault { IfErr result (HasItsCause d.old.bytes) }
    ensures frame { OnlyLooks I.ImageRead d.old d.new (IsErrOf result RecordFault.DiskFault) }
    ensures cost { id ≢ pos 0 → CostsOwned I.ImageRead id d.old d.new }
    ensures pass { id ≡ pos 0 → CostsAtMost I.ImageRead d.old.len d.old d.new }
{
    if id != 0 {
        return owned_ids(alloc, d, id);
    }
    let ids = ids_where(alloc, d, &Unowned)?;
    Ok(Some(ids))
}

/// Tells the groups that an entry owns, ascending; for the id 0 those that have no owner. It asks for the blocks of the chain of the id and
/// of the owned one; for the id 0 it passes the image once.
pub fn list_owned<I: ImageRead>(
    alloc: Global,
    d: &mut Draft<I>,
    id: i32,
) -> Result<CallEnd, RecordFault>
    requires { d.old.len ≤ 16777216 }
    ensures meant { IfOk result (IsToldOf d.old.bytes (λ s. owned s.registry id)) }
    ensures short { IfOk result IsDecided }
    ensures fault { IfErr result (HasItsCause d.old.bytes) }
    ensures frame { OnlyLooks I.ImageRead d.old d.new (IsErrOf result RecordFault.DiskFault) }
    ensures cost { id ≢ pos 0 → CostsOwned I.ImageRead id d.old d.new }
    ensures pass { id ≡ pos 0 → CostsAtMost I.ImageRead d.old.len d.old d.new }
{
    let Some(ids) = owned(alloc, d, id)? else {
        return Ok(CallEnd::Rule(NO_ENTRY));
    };
    tell_ids(alloc, ids, d.len())
}

/// The rule by which a call on a pair is refused, whatever pairs are there: both are entries, the second a group and the first a user.
pub fn pair_fault<I: ImageRead>(
    alloc: Global,
    d: &mut Draft<I>,
    member: i32,
    group: i32,
) -> Result<Option<u32>, RecordFault>
    requires { d.old.len ≤ 16777216 }
    ensures found { IfOk result (λ fault. OfStates d.old.bytes
        (λ s. (goes : Verdict) → of_pair s.registry member group goes ≡ unless fault goes)) }
    ensures fault { IfErr result (HasItsCause d.old.bytes) }
    ensures frame { OnlyLooks I.ImageRead d.old d.new (IsErrOf result RecordFault.DiskFault) }
    ensures cost { CostsTwoChains I.ImageRead member group d.old d.new }
{
    if is_unknown(alloc, d, member)? {
        return Ok(Some(NO_ENTRY));
    }
    if is_unknown(alloc, d, group)? {
        return Ok(Some(NO_ENTRY));
    }
    if !is_group(group) {
        return Ok(Some(NOT_GROUP));
    }
    if is_group(member) {
        return Ok(Some(NOT_USER));
    }
    Ok(None)
}

/// Tells whether a user is in a group. It walks along the chain of each id, and then reads the list of the user.
pub fn is_member_of<I: ImageRead>(
    alloc: Global,
    d: &mut Draft<I>,
    member: i32,
    group: i32,
) -> Result<CallEnd, RecordFault>
    requires { d.old.len ≤ 16777216 }
    ensures meant { IfOk result (IsToldOf d.old.bytes (λ s. of_pair s.registry member group
        (Answers (answer.Truth (s.is_in member group))))) }
    ensures short { IfOk result IsDecided }
    ensures fault { IfErr result (HasItsCause d.old.bytes) }
    ensures frame { OnlyLooks I.ImageRead d.old d.new (IsErrOf result RecordFault.DiskFault) }
    ensures cost { CostsTwoAndList I.ImageRead member group d.old d.new }
{
    if let Some(rule) = pair_fault(alloc, d, member, group)? {
        return Ok(CallEnd::Rule(rule));
    }
    let is = is_in(alloc, d, member, group)?;
    let end = tell(alloc, &PtAnswer::Truth(is))?;
    Ok(end)
}
