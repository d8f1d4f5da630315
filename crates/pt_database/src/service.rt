//! The protection database as a service.
#![tactic(auto, unfolding(pt_service::specs::Meaning::verdict))]

ghost use Rattle.std.specs.Prelude.{◌≡◌, ◌≢◌, ◌≤◌, Some, IfSome, IfOk, IfErr, IsErrOf, false, true};
ghost use Rattle.std.specs.Option.{option_map};
ghost use Rattle.db_image.specs.Draft.{StaysAsItWas};
ghost use Rattle.db_image.specs.Ends.{EndsBy, IsDecided, IsShort, KeepsGrammar};
ghost use Rattle.db_image.specs.Images.{OnlyReads};
ghost use Rattle.db_blocks.specs.Ends.{OnlyDrafts};
ghost use Rattle.prdb_finds.specs.Ends.{HasItsCause};
ghost use Rattle.pt_calls.specs.Calls.{HasSpelling, call_kind};
ghost use Rattle.pt_calls.specs.Reading.{call_of};
ghost use Rattle.pt_calls.specs.Writes.{is_write};
ghost use Rattle.pt_service.specs.Meaning.{asked, verdict};
ghost use Rattle.pt_service.specs.State.{State};
ghost use Rattle.pt_looks.specs.States.{HoldsRecords};
ghost use Rattle.pt_changes.specs.Standing.{IsMeantOf};
ghost use Rattle.pt_database.specs.Costs.{CostsAsLookUps};
ghost use Rattle.pt_database.specs.Service.{protection_database};

use call_grammar::{bytes_fit, push_words};
use db_image::{CallEnd, Draft, DraftService, DraftWords, ImageRead, RecordFault};
use prdb_layout::draft_over;
use pt_calls::{PtCall, call_words, kind_of, read_call, reply_words};
use pt_changes::{add_to_group, delete, remove_from_group};
use pt_looks::{get_cps, is_member_of, list_elements, list_entries, list_entry, list_owned};
use pt_service::{
    id_to_name, list_max, name_to_id, new_entry, new_entry_of_id, set_fields, set_max,
};
use pt_turns::change_entry;
use std::alloc::Global;
use ubik_types::{Bytes, NoMemory};

/// Whether a call's bytes are one that may change the database; none where they are no call.
fn writes(call: &[u8]) -> Option<bool>
    ensures { result ≡ option_map is_write (option_map call_kind (call_of call.now)) }
{
    match kind_of(call) {
        Some(kind) => Some(kind.is_write()),
        None => None,
    }
}

/// Makes a call.
fn answer<I: ImageRead>(
    alloc: Global,
    d: &mut Draft<I>,
    call: PtCall,
) -> Result<CallEnd, RecordFault>
    requires len { d.old.len ≤ 16777216 }
    requires call { HasSpelling call }
    ensures meant { IfOk result (λ end. IsMeantOf d.old.bytes (λ s. verdict s (Some call)) end d.new.bytes) }
    ensures longer { d.old.len ≤ d.new.len }
    ensures short { IfOk result IsDecided }
    ensures fault { IfErr result (HasItsCause d.old.bytes) }
    ensures rests { is_write (call_kind call) ≡ false → StaysAsItWas d.old d.new }
    ensures frame { OnlyDrafts I.ImageRead d.old d.new (IsErrOf result RecordFault.DiskFault) }
    ensures cost { CostsAsLookUps I.ImageRead (Some call) d.old d.new }
{
    match call {
        PtCall::NewEntry { name, kind, owner } => new_entry(alloc, d, name.as_slice(), kind, owner),
        PtCall::INewEntry { name, id, owner } => {
            new_entry_of_id(alloc, d, name.as_slice(), id, owner)
        }
        PtCall::NameToId { names } => name_to_id(alloc, d, names.as_slice()),
        PtCall::IdToName { ids } => id_to_name(alloc, d, ids.as_slice()),
        PtCall::Delete { id } => delete(alloc, d, id),
        PtCall::AddToGroup { member, group } => add_to_group(alloc, d, member, group),
        PtCall::RemoveFromGroup { member, group } => remove_from_group(alloc, d, member, group),
        PtCall::GetCps { id } => get_cps(alloc, d, id),
        PtCall::ListMax => list_max(alloc, d),
        PtCall::SetMax { id, is_group } => set_max(alloc, d, id, is_group),
        PtCall::ListEntry { id } => list_entry(alloc, d, id),
        PtCall::ListEntries { kinds, after } => list_entries(alloc, d, kinds, after),
        PtCall::ChangeEntry {
            id,
            name,
            owner,
            new_id,
        } => change_entry(alloc, d, id, name.as_slice(), owner, new_id),
        PtCall::SetFields {
            id,
            mask,
            flags,
            quota,
        } => set_fields(alloc, d, id, mask, flags, quota),
        PtCall::ListElements { id } => list_elements(alloc, d, id),
        PtCall::IsMemberOf { member, group } => is_member_of(alloc, d, member, group),
        PtCall::ListOwned { id } => list_owned(alloc, d, id),
    }
}

/// Makes a call on the protection database, as `PtService` does. Where the image has the one chain of each name, in lower case, that a
/// nametoid looks for (of each id that an idtoname does), the call asks the image for a word and each block of that chain at most, for each
/// of the list.
pub fn serve_protection<I: ImageRead>(alloc: Global, image: &mut Draft<I>, call: &[u8]) -> CallEnd
    requires { image.old.len ≤ 16777216 }
    ensures meant { IfSome image.old.bytes (λ bytes. (s : State) → HoldsRecords bytes s
        → EndsBy (protection_database.call bytes 0 call.now) result image.new.bytes) }
    ensures grammar { KeepsGrammar (protection_database.writes call.now) result }
    ensures rests { protection_database.writes call.now ≢ Some true → StaysAsItWas image.old image.new }
    ensures short { IsShort result }
    ensures longer { image.old.len ≤ image.new.len }
    ensures layout { image.new.layout ≡ image.old.layout }
    ensures reads { OnlyReads I.ImageRead image.old.image image.new.image (result ≡ CallEnd.DiskFault) }
    ensures cost { CostsAsLookUps I.ImageRead (asked call.now) image.old image.new }
{
    let Ok(read) = read_call(alloc, call) else {
        return CallEnd::NoMemory;
    };
    let Some(asked) = read else {
        return CallEnd::Malformed;
    };
    match answer(alloc, image, asked) {
        Ok(end) => end,
        Err(fault) => fault.into(),
    }
}

/// The protection database.
#[derive(Drop)]
pub struct PtService;

impl DraftService for PtService {
    ghost use Rattle.pt_database.specs.Service.{protection_standing};
    ghost use Rattle.pt_database.specs.GrammarLaws.{database_keeps_grammar, database_rests};
    ghost use Rattle.pt_database.specs.ServiceLaws.{database_is_meant, database_never_shrinks, empty_stands};

    ghost standing = { protection_standing };

    ghost empty_is_first = { empty_stands };

    ghost is_meant = { database_is_meant };

    ghost keeps_grammar = { database_keeps_grammar };

    ghost only_writers_change = { database_rests };

    ghost never_shrinks = { database_never_shrinks };

    fn writes(call: &[u8]) -> Option<bool> {
        writes(call)
    }

    fn call<I: ImageRead>(alloc: Global, image: &mut Draft<I>, _now: u32, call: &[u8]) -> CallEnd {
        serve_protection(alloc, image, call)
    }

    fn draft<I: ImageRead>(alloc: Global, image: I) -> Draft<I> {
        draft_over(alloc, image)
    }
}

impl DraftWords for PtService {
    ghost use Rattle.pt_database.specs.Words.{protection_words};

    ghost words = { protection_words };

    fn call_words(alloc: Global, call: &[Bytes]) -> Result<Option<Bytes>, NoMemory> {
        match call_words(alloc, call)? {
            None => Ok(None),
            Some(bytes) => {
                bytes_fit(bytes.as_slice());
                Ok(Some(bytes))
            }
        }
    }

    fn tell_answer(text: &mut String, call: &[u8], answer: &[u8]) -> Result<(), NoMemory> {
        let alloc = *text.allocator();
        match reply_words(alloc, call, answer)? {
            Some(words) => push_words(text, words.as_slice()),
            None => Ok(()),
        }
    }
}
