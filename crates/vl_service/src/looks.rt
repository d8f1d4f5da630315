//! The calls of the location database that look for an entry, over a draft.
ghost use Rattle.std.specs.Prelude.{◌≡◌, ◌==◌, ◌<◌, ◌≤◌, ◌^◌, false, Some, IfSome, IfOk, IfErr, IsErrOf, filter, length, not};
ghost use Rattle.db_image.specs.Ends.{IsDecided, end_of};
ghost use Rattle.db_blocks.specs.Ends.{OnlyLooks};
ghost use Rattle.db_chains.specs.Ends.{CostsAtMost};
ghost use Rattle.vldb_chains.specs.Keys.{id_chain, name_chain};
ghost use Rattle.vldb_chains.specs.Places.{id_links, name_links};
ghost use Rattle.vldb_records.specs.Ends.{HasItsCause};
ghost use Rattle.vldb_entries.specs.Location.{Location, IsSmall, is_name};
ghost use Rattle.vldb_records.specs.Records.{Holds};
ghost use Rattle.vl_calls.specs.Answers.{AnswerHasSpelling};
ghost use Rattle.vl_service.specs.Costs.{CostsOneChain};
ghost use Rattle.vl_service.specs.Meaning.{Answers, entry_of_type, is_of_type, is_volume_type, named_verdict, of_entry, of_id, reply_by, told, used};
ghost use Rattle.vl_calls.specs.declared.limits.TheConstants.{MAX_HOSTS};
ghost use Rattle.vl_calls.specs.declared.answers.VlAnswer.TheVariants as answer;

use crate::rules::{BAD_NAME, BAD_VOLUME_TYPE, NO_ENTRY};
use call_grammar::Items;
use db_image::{CallEnd, Draft, ImageRead, RecordFault};
use std::alloc::Global;
use ubik_types::NoMemory;
use vl_calls::{Hosts, VlAnswer, spell_answer};
use vldb_entries::{PLACES, VlEntry, is_name};
use vldb_records::{addresses, find_id, find_name};

/// Tells an answer.
pub(crate) fn tell(alloc: Global, answer: &VlAnswer) -> Result<CallEnd, NoMemory>
    requires { AnswerHasSpelling answer.now }
    ensures told { IfOk result (λ end. end ≡ end_of (reply_by (Answers answer.now))) }
    ensures short { IfOk result IsDecided }
{
    let bytes = spell_answer(alloc, answer)?;
    Ok(CallEnd::Done(bytes))
}

/// Tells the entry that a call names, if there is one.
fn tell_entry(alloc: Global, found: Option<VlEntry>) -> Result<CallEnd, NoMemory>
    requires { IfSome found IsSmall }
    ensures told { IfOk result (λ end. end ≡ end_of (reply_by (of_entry found told))) }
    ensures short { IfOk result IsDecided }
{
    match found {
        Some(entry) => tell(alloc, &VlAnswer::Entry(entry)),
        None => Ok(CallEnd::Rule(NO_ENTRY)),
    }
}

/// Tells the entry of a name. Where the image has the one chain of the name, it asks for a word, the addresses and a block for each word of
/// that chain at most; to refuse bytes that are no name it asks for nothing.
pub fn entry_by_name<I: ImageRead>(
    alloc: Global,
    d: &mut Draft<I>,
    name: &[u8],
) -> Result<CallEnd, RecordFault>
    requires { d.old.len < 2 ^ 31 }
    ensures meant { IfOk result (λ end. IfSome d.old.bytes (λ image. (s : Location) → Holds image s
        → end ≡ end_of (reply_by (named_verdict s name.now)))) }
    ensures short { IfOk result IsDecided }
    ensures fault { IfErr result (HasItsCause d.old.bytes) }
    ensures frame { OnlyLooks I.ImageRead d.old d.new (IsErrOf result RecordFault.DiskFault) }
    ensures cost { CostsOneChain I.ImageRead name_links (name_chain name.now) d.old d.new }
    ensures free { is_name name.now ≡ false → CostsAtMost I.ImageRead 0 d.old d.new }
{
    if !is_name(name) {
        return Ok(CallEnd::Rule(BAD_NAME));
    }
    let found = find_name(alloc, d, name)?;
    let end = tell_entry(alloc, found)?;
    Ok(end)
}

/// Whether a volume type is one: 0 read-write, 1 read-only, 2 backup, -1 any of the three.
pub(crate) fn is_volume_type(volume_type: i32) -> bool
    ensures { result ≡ is_volume_type volume_type }
{
    volume_type == -1 || volume_type == 0 || volume_type == 1 || volume_type == 2
}

/// Whether an entry has an id as its id of a type.
fn is_of_type(volume_type: i32, id: u32, e: &VlEntry) -> bool
    ensures { result ≡ is_of_type volume_type id e.now }
{
    if volume_type == 0 {
        id != 0 && e.rw == id
    } else if volume_type == 1 {
        id != 0 && e.ro == id
    } else if volume_type == 2 {
        id != 0 && e.backup == id
    } else {
        id != 0 && (e.rw == id || e.ro == id || e.backup == id)
    }
}

/// The entry that has an id as its id of a type.
pub(crate) fn find_typed<I: ImageRead>(
    alloc: Global,
    d: &mut Draft<I>,
    volume_type: i32,
    id: u32,
) -> Result<Option<VlEntry>, RecordFault>
    requires { d.old.len < 2 ^ 31 }
    ensures found { IfOk result (λ found. IfSome d.old.bytes (λ image. (s : Location) → Holds image s
        → entry_of_type s volume_type id ≡ found)) }
    ensures small { IfOk result (λ found. IfSome found IsSmall) }
    ensures fault { IfErr result (HasItsCause d.old.bytes) }
    ensures frame { OnlyLooks I.ImageRead d.old d.new (IsErrOf result RecordFault.DiskFault) }
    ensures cost { CostsOneChain I.ImageRead id_links (id_chain id) d.old d.new }
{
    match find_id(alloc, d, id)? {
        Some(entry) => {
            if is_of_type(volume_type, id, &entry) {
                Ok(Some(entry))
            } else {
                Ok(None)
            }
        }
        None => Ok(None),
    }
}

/// Tells the entry that has an id as its id of a type. Where the image has the one chain of the id, it asks for a word, the addresses and a
/// block for each word of that chain at most; to refuse what is no type it asks for nothing.
pub fn entry_by_id<I: ImageRead>(
    alloc: Global,
    d: &mut Draft<I>,
    volume_type: i32,
    id: u32,
) -> Result<CallEnd, RecordFault>
    requires { d.old.len < 2 ^ 31 }
    ensures meant { IfOk result (λ end. IfSome d.old.bytes (λ image. (s : Location) → Holds image s
        → end ≡ end_of (reply_by (of_id s volume_type id told)))) }
    ensures short { IfOk result IsDecided }
    ensures fault { IfErr result (HasItsCause d.old.bytes) }
    ensures frame { OnlyLooks I.ImageRead d.old d.new (IsErrOf result RecordFault.DiskFault) }
    ensures cost { CostsOneChain I.ImageRead id_links (id_chain id) d.old d.new }
    ensures free { is_volume_type volume_type ≡ false → CostsAtMost I.ImageRead 0 d.old d.new }
{
    if !is_volume_type(volume_type) {
        return Ok(CallEnd::Rule(BAD_VOLUME_TYPE));
    }
    let found = find_typed(alloc, d, volume_type, id)?;
    let end = tell_entry(alloc, found)?;
    Ok(end)
}

/// The addresses of the places that are used.
fn used_of(alloc: Global, addresses: &[u32; PLACES]) -> Result<Hosts, NoMemory>
    ensures value { IfOk result (λ hosts. hosts ≡ filter (λ host. not (host == 0)) addresses.now) }
    ensures count { IfOk result (λ hosts. length hosts ≤ MAX_HOSTS) }
{
    let mut hosts = Vec::new(alloc);
    for host in addresses {
        if *host != 0 {
            hosts.push(*host)?;
        }
    }
    Ok(Items::new(hosts))
}

/// Tells the addresses of the servers, in the order of their places.
pub fn all_addresses<I: ImageRead>(alloc: Global, d: &mut Draft<I>) -> Result<CallEnd, RecordFault>
    requires { d.old.len < 2 ^ 31 }
    ensures meant { IfOk result (λ end. IfSome d.old.bytes (λ image. (s : Location) → Holds image s
        → end ≡ end_of (reply_by (Answers (answer.Hosts (used s)))))) }
    ensures short { IfOk result IsDecided }
    ensures fault { IfErr result (HasItsCause d.old.bytes) }
    ensures frame { OnlyLooks I.ImageRead d.old d.new (IsErrOf result RecordFault.DiskFault) }
{
    let places = addresses(d)?;
    let hosts = used_of(alloc, &places)?;
    let end = tell(alloc, &VlAnswer::Hosts(hosts))?;
    Ok(end)
}

/// Tells that the database answers.
pub fn probe(alloc: Global) -> Result<CallEnd, NoMemory>
    ensures told { IfOk result (λ end. end ≡ end_of (reply_by (Answers answer.Done))) }
    ensures short { IfOk result IsDecided }
{
    tell(alloc, &VlAnswer::Done)
}
