//! The location database as a service.
#![tactic(auto, unfolding(vl_service::specs::Meaning::verdict))]

ghost use Rattle.std.specs.Prelude.{◌≡◌, ◌≢◌, ◌≤◌, Some, IfSome, IfOk, IfErr, IsErrOf, false, true};
ghost use Rattle.std.specs.Option.{option_map};
ghost use Rattle.db_image.specs.Draft.{StaysAsItWas};
ghost use Rattle.db_image.specs.Ends.{EndsBy, IsDecided, IsShort, KeepsGrammar};
ghost use Rattle.db_image.specs.Images.{OnlyReads};
ghost use Rattle.db_blocks.specs.Ends.{OnlyDrafts};
ghost use Rattle.vldb_records.specs.Ends.{HasItsCause};
ghost use Rattle.vldb_entries.specs.Location.{Location};
ghost use Rattle.vldb_records.specs.Records.{Holds};
ghost use Rattle.vl_calls.specs.Calls.{call_kind};
ghost use Rattle.vl_calls.specs.Reading.{call_of};
ghost use Rattle.vl_calls.specs.Writes.{is_write};
ghost use Rattle.vl_service.specs.Meaning.{verdict};
ghost use Rattle.vl_service.specs.Standing.{IsDone};
ghost use Rattle.vl_database.specs.Costs.{CostsAsALookUp};
ghost use Rattle.vl_database.specs.Service.{spelled_call, vl_database};

use call_grammar::{bytes_fit, push_words};
use db_blocks::BLOCK_LEN;
use db_image::{CallEnd, Draft, DraftService, DraftWords, ImageRead, RecordFault};
use std::alloc::Global;
use ubik_types::{Bytes, NoMemory};
use vl_calls::{VlCall, call_words, kind_of, read_call, reply_words};
use vl_service::{
    all_addresses, change_address, create_entry, delete_entry, entry_by_id, entry_by_name,
    list_entries, probe, release_lock, replace_entry, set_lock, take_volume_ids,
};

/// The length of an image's head, in bytes.
const HEAD_LEN: u32 = 3132;

/// Whether a call's bytes are one that may change the database; none where they are no call.
fn writes(call: &[u8]) -> Option<bool>
    ensures { result ≡ option_map is_write (option_map call_kind (call_of call.now)) }
{
    match kind_of(call) {
        Some(kind) => Some(kind.is_write()),
        None => None,
    }
}

/// Makes a call at a moment.
fn answer<I: ImageRead>(
    alloc: Global,
    d: &mut Draft<I>,
    now: u32,
    call: VlCall,
) -> Result<CallEnd, RecordFault>
    requires { d.old.len ≤ 16777216 }
    ensures meant { IfOk result (λ end. IfSome d.old.bytes (λ image. (s : Location) → Holds image s
        → IsDone (verdict s now (Some call)) s image end d.new.bytes)) }
    ensures longer { d.old.len ≤ d.new.len }
    ensures short { IfOk result IsDecided }
    ensures fault { IfErr result (HasItsCause d.old.bytes) }
    ensures rests { is_write (call_kind call) ≡ false → StaysAsItWas d.old d.new }
    ensures frame { OnlyDrafts I.ImageRead d.old d.new (IsErrOf result RecordFault.DiskFault) }
    ensures cost { CostsAsALookUp I.ImageRead (Some call) d.old d.new }
{
    match call {
        VlCall::GetNewVolumeId { bump } => take_volume_ids(alloc, d, bump),
        VlCall::CreateEntry { entry } => create_entry(alloc, d, entry),
        VlCall::DeleteEntry { id, volume_type } => delete_entry(alloc, d, volume_type, id),
        VlCall::GetEntryById { id, volume_type } => entry_by_id(alloc, d, volume_type, id),
        VlCall::GetEntryByName { name } => entry_by_name(alloc, d, name.as_slice()),
        VlCall::ReplaceEntry {
            id,
            volume_type,
            entry,
            mask,
        } => replace_entry(alloc, d, volume_type, id, entry, mask),
        VlCall::SetLock {
            id,
            volume_type,
            operation,
        } => set_lock(alloc, d, now, volume_type, id, operation),
        VlCall::ReleaseLock {
            id,
            volume_type,
            mask,
        } => release_lock(alloc, d, volume_type, id, mask),
        VlCall::ListAttributes {
            after,
            host,
            partition,
            locked,
        } => list_entries(alloc, d, after, host, partition, locked),
        VlCall::GetAddrs => all_addresses(alloc, d),
        VlCall::ChangeAddr { from, to } => change_address(alloc, d, from, to),
        VlCall::Probe => {
            let end = probe(alloc)?;
            Ok(end)
        }
    }
}

/// Makes a call on the location database at a moment, as `VlService` does. Where the image has the one chain of the name (the id) that
/// getentrybyname (getentrybyid) looks for, the call asks the image for a word, the addresses and a block for each word of that chain at
/// most.
pub fn serve_location<I: ImageRead>(
    alloc: Global,
    image: &mut Draft<I>,
    now: u32,
    call: &[u8],
) -> CallEnd
    requires { image.old.len ≤ 16777216 }
    ensures meant { IfSome image.old.bytes (λ bytes. (s : Location) → Holds bytes s
        → EndsBy (vl_database.call bytes now call.now) result image.new.bytes) }
    ensures grammar { KeepsGrammar (vl_database.writes call.now) result }
    ensures rests { vl_database.writes call.now ≢ Some true → StaysAsItWas image.old image.new }
    ensures short { IsShort result }
    ensures longer { image.old.len ≤ image.new.len }
    ensures layout { image.new.layout ≡ image.old.layout }
    ensures reads { OnlyReads I.ImageRead image.old.image image.new.image (result ≡ CallEnd.DiskFault) }
    ensures cost { CostsAsALookUp I.ImageRead (spelled_call call.now) image.old image.new }
{
    let Ok(read) = read_call(alloc, call) else {
        return CallEnd::NoMemory;
    };
    let Some(asked) = read else {
        return CallEnd::Malformed;
    };
    match answer(alloc, image, now, asked) {
        Ok(end) => end,
        Err(fault) => fault.into(),
    }
}

/// The location database.
#[derive(Drop)]
pub struct VlService;

impl DraftService for VlService {
    ghost use Rattle.vl_database.specs.Service.{vl_standing};
    ghost use Rattle.vl_database.specs.GrammarLaws.{database_keeps_grammar, database_rests};
    ghost use Rattle.vl_database.specs.ServiceLaws.{database_is_meant, database_never_shrinks, empty_stands};

    ghost standing = { vl_standing };

    ghost empty_is_first = { empty_stands };

    ghost is_meant = { database_is_meant };

    ghost keeps_grammar = { database_keeps_grammar };

    ghost only_writers_change = { database_rests };

    ghost never_shrinks = { database_never_shrinks };

    fn writes(call: &[u8]) -> Option<bool> {
        writes(call)
    }

    fn call<I: ImageRead>(alloc: Global, image: &mut Draft<I>, now: u32, call: &[u8]) -> CallEnd {
        serve_location(alloc, image, now, call)
    }

    fn draft<I: ImageRead>(alloc: Global, image: I) -> Draft<I> {
        Draft::over(alloc, image, HEAD_LEN, BLOCK_LEN as u32)
    }
}

impl DraftWords for VlService {
    ghost use Rattle.vl_database.specs.Words.{vl_words};

    ghost words = { vl_words };

    fn call_words(alloc: Global, call: &[Bytes]) -> Result<Option<Bytes>, NoMemory> {
        match call_words(alloc, call)? {
            None => Ok(None),
            Some(bytes) => {
                bytes_fit(bytes.as_slice());
                Ok(Some(bytes))
            }
        }
    }

    fn tell_answer(text: &mut String, call: &[u8], answer: &[u8]) -> Result<(), NoMemory> {
        let alloc = *text.allocator();
        match reply_words(alloc, call, answer)? {
            Some(words) => push_words(text, words.as_slice()),
            None => Ok(()),
        }
    }
}
