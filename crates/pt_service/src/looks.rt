//! The calls that look for entries one by one, and for the maxima, over a draft.
ghost use Rattle.std.specs.Prelude.{◌≡◌, ◌<◌, ◌≤◌, ◌^◌, IfOk, IfErr, IsErrOf, length, map};
ghost use Rattle.std.specs.Fmt.{signed_decimal};
ghost use Rattle.std.specs.List.{AllByRecursion};
ghost use Rattle.db_image.specs.Ends.{IsDecided, end_of};
ghost use Rattle.db_blocks.specs.Ends.{OnlyLooks};
ghost use Rattle.prdb_finds.specs.Ends.{HasItsCause};
ghost use Rattle.prdb_finds.specs.Keys.{id_chain};
ghost use Rattle.prdb_finds.specs.Places.{id_links, name_links};
ghost use Rattle.pt_calls.specs.Answers.{AnswerHasSpelling, answer_spelling};
ghost use Rattle.pt_calls.specs.Meaning.{id_or_anonymous};
ghost use Rattle.pt_calls.specs.declared.answers.PtAnswer.TheVariants as answer;
ghost use Rattle.pt_calls.specs.declared.limits.TheConstants.{MAX_LIST};
ghost use Rattle.pt_service.specs.Costs.{CostsOneChain, CostsTheirChains, lowered_chain};
ghost use Rattle.pt_service.specs.Meaning.{Answers, name_of, reply_by};
ghost use Rattle.pt_service.specs.Told.{IsMeant, Told};

use crate::finds::{entry_of_id, entry_of_name};
use crate::names::lowered;
use call_grammar::Items;
use db_image::{CallEnd, Draft, ImageRead, RecordFault};
use prdb_finds::maxima;
use pt_calls::{Ids, Names, PtAnswer, spell_answer};
use std::alloc::Global;
use ubik_types::{Bytes, NoMemory};

/// The id of the entry `anonymous`, to which a name is translated that is no entry's.
pub(crate) const ANONYMOUS: i32 = 32766;

/// Tells an answer.
pub fn tell(alloc: Global, answer: &PtAnswer) -> Result<CallEnd, NoMemory>
    requires spelled { AnswerHasSpelling answer.now }
    requires short { length (answer_spelling answer.now) ≤ 1048576 }
    ensures told { IfOk result (λ end. end ≡ end_of (reply_by (Answers answer.now))) }
    ensures short { IfOk result IsDecided }
{
    let bytes = spell_answer(alloc, answer)?;
    Ok(CallEnd::Done(bytes))
}

/// Tells the maxima.
pub fn list_max<I: ImageRead>(alloc: Global, d: &mut Draft<I>) -> Result<CallEnd, RecordFault>
    requires { d.old.len < 2 ^ 31 }
    ensures meant { IfOk result (λ end. IsMeant d.old.bytes (λ r. Answers (answer.Maxima r.max_user r.max_group)) end d.new.bytes) }
    ensures short { IfOk result IsDecided }
    ensures fault { IfErr result (HasItsCause d.old.bytes) }
    ensures frame { OnlyLooks I.ImageRead d.old d.new (IsErrOf result RecordFault.DiskFault) }
{
    let (user, group) = maxima(d)?;
    let end = tell(alloc, &PtAnswer::Maxima { user, group })?;
    Ok(end)
}

/// The id that a name is translated to.
fn id_of<I: ImageRead>(alloc: Global, d: &mut Draft<I>, name: &[u8]) -> Result<i32, RecordFault>
    requires { d.old.len < 2 ^ 31 }
    ensures found { IfOk result (λ id. Told d.old.bytes (λ r. id ≡ id_or_anonymous r name.now)) }
    ensures fault { IfErr result (HasItsCause d.old.bytes) }
    ensures frame { OnlyLooks I.ImageRead d.old d.new (IsErrOf result RecordFault.DiskFault) }
    ensures cost { CostsOneChain I.ImageRead name_links (lowered_chain name.now) d.old d.new }
{
    let name = lowered(alloc, name)?;
    match entry_of_name(alloc, d, &name)? {
        Some(entry) => Ok(entry.id),
        None => Ok(ANONYMOUS),
    }
}

/// The ids that names are translated to, in their order.
fn ids_of<I: ImageRead>(
    alloc: Global,
    d: &mut Draft<I>,
    names: &[Bytes],
) -> Result<Ids, RecordFault>
    requires { d.old.len < 2 ^ 31 }
    ensures found { IfOk result (λ ids. Told d.old.bytes (λ r. ids ≡ map (id_or_anonymous r) names.now)) }
    ensures count { IfOk result (λ ids. length ids ≡ length names.now) }
    ensures fault { IfErr result (HasItsCause d.old.bytes) }
    ensures frame { OnlyLooks I.ImageRead d.old d.new (IsErrOf result RecordFault.DiskFault) }
    ensures cost { CostsTheirChains I.ImageRead name_links lowered_chain names.now d.old d.new }
{
    let mut ids = Vec::new(alloc);
    for name in names {
        let id = id_of(alloc, d, name.as_slice())?;
        ids.push(id)?;
    }
    Ok(Items::new(ids))
}

/// Translates names to ids, 32766 for one that no entry has. Where the image has the one chain of each name, in lower case, it asks for a
/// word and each block of that chain at most, for each name of the list.
pub fn name_to_id<I: ImageRead>(
    alloc: Global,
    d: &mut Draft<I>,
    names: &[Bytes],
) -> Result<CallEnd, RecordFault>
    requires len { d.old.len < 2 ^ 31 }
    requires count { length names.now ≤ MAX_LIST }
    ensures meant { IfOk result (λ end. IsMeant d.old.bytes (λ r. Answers (answer.Ids (map (id_or_anonymous r) names.now))) end d.new.bytes) }
    ensures short { IfOk result IsDecided }
    ensures fault { IfErr result (HasItsCause d.old.bytes) }
    ensures frame { OnlyLooks I.ImageRead d.old d.new (IsErrOf result RecordFault.DiskFault) }
    ensures cost { CostsTheirChains I.ImageRead name_links lowered_chain names.now d.old d.new }
{
    let ids = ids_of(alloc, d, names)?;
    let end = tell(alloc, &PtAnswer::Ids(ids))?;
    Ok(end)
}

/// The digits of an id.
#[tactic(auto, using(crate::proofs::Lengths::digits_len))]
fn digits_of(alloc: Global, id: i32) -> Result<Bytes, NoMemory>
    ensures value { IfOk result (λ text. text ≡ signed_decimal id) }
    ensures len { IfOk result (λ text. length text ≤ 63) }
{
    let text = format!(in alloc; "{id}")?;
    Ok(Bytes::new(text.into_bytes()))
}

/// The name of the entry of an id, and where it is no entry's its digits.
fn name_of<I: ImageRead>(alloc: Global, d: &mut Draft<I>, id: i32) -> Result<Bytes, RecordFault>
    requires { d.old.len < 2 ^ 31 }
    ensures found { IfOk result (λ name. Told d.old.bytes (λ r. name ≡ name_of r id)) }
    ensures len { IfOk result (λ name. length name ≤ 63) }
    ensures fault { IfErr result (HasItsCause d.old.bytes) }
    ensures frame { OnlyLooks I.ImageRead d.old d.new (IsErrOf result RecordFault.DiskFault) }
    ensures cost { CostsOneChain I.ImageRead id_links (id_chain id) d.old d.new }
{
    match entry_of_id(alloc, d, id)? {
        Some(entry) => Ok(entry.name),
        None => Ok(digits_of(alloc, id)?),
    }
}

/// The names that ids are translated to, in their order.
fn names_of<I: ImageRead>(
    alloc: Global,
    d: &mut Draft<I>,
    ids: &[i32],
) -> Result<Names, RecordFault>
    requires { d.old.len < 2 ^ 31 }
    ensures found { IfOk result (λ names. Told d.old.bytes (λ r. names ≡ map (name_of r) ids.now)) }
    ensures lens { IfOk result (AllByRecursion (λ name. length name ≤ 63)) }
    ensures count { IfOk result (λ names. length names ≡ length ids.now) }
    ensures fault { IfErr result (HasItsCause d.old.bytes) }
    ensures frame { OnlyLooks I.ImageRead d.old d.new (IsErrOf result RecordFault.DiskFault) }
    ensures cost { CostsTheirChains I.ImageRead id_links id_chain ids.now d.old d.new }
{
    let mut names = Vec::new(alloc);
    for id in ids {
        let name = name_of(alloc, d, *id)?;
        names.push(name)?;
    }
    Ok(Items::new(names))
}

/// Translates ids to names, the digits of one that no entry has. Where the image has the one chain of each id, it asks for a word and each
/// block of that chain at most, for each id of the list.
pub fn id_to_name<I: ImageRead>(
    alloc: Global,
    d: &mut Draft<I>,
    ids: &[i32],
) -> Result<CallEnd, RecordFault>
    requires len { d.old.len < 2 ^ 31 }
    requires count { length ids.now ≤ MAX_LIST }
    ensures meant { IfOk result (λ end. IsMeant d.old.bytes (λ r. Answers (answer.Names (map (name_of r) ids.now))) end d.new.bytes) }
    ensures short { IfOk result IsDecided }
    ensures fault { IfErr result (HasItsCause d.old.bytes) }
    ensures frame { OnlyLooks I.ImageRead d.old d.new (IsErrOf result RecordFault.DiskFault) }
    ensures cost { CostsTheirChains I.ImageRead id_links id_chain ids.now d.old d.new }
{
    let names = names_of(alloc, d, ids)?;
    let end = tell(alloc, &PtAnswer::Names(names))?;
    Ok(end)
}
