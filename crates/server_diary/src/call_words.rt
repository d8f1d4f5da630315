//! The words of a call, as a script asks it.
ghost use Rattle.std.specs.Prelude.{◌≡◌, Some, IfOk, IfSome};
ghost use Rattle.server_diary.specs.CallWords.{call_of, is_writing};

use crate::word_lists::WordList;
use call_grammar::{MAX_TEXT, NotRead};
use server_texts::Database;
use std::alloc::Global;
use ubik_types::{Bytes, NoMemory};
use vl_calls::MAX_SITES;
use xdr_base::XdrReader;

/// Whether bytes are a call of a database that may change it.
pub(crate) fn is_writing(database: Database, call: &[u8]) -> bool
    ensures { result ≡ is_writing database call.now }
{
    match database {
        Database::Location => vl_calls::kind_of(call).is_some_and(|kind| kind.is_write()),
        Database::Protection => pt_calls::kind_of(call).is_some_and(|kind| kind.is_write()),
    }
}

/// The words that name a call; none where a string in it has no word. What they name is compared with the call.
pub(crate) fn call_words(
    alloc: Global,
    database: Database,
    call: &[u8],
) -> Result<Option<Vec<Bytes>>, NoMemory>
    ensures { IfOk result (λ found. IfSome found (λ words. call_of database words.items ≡ Some call.now)) }
{
    let words = match words_in(alloc, database, call) {
        Ok(words) => words,
        Err(NotRead::None) => return Ok(None),
        Err(NotRead::NoMemory) => return Err(NoMemory),
    };
    let named = named_call(alloc, database, &words)?;
    match named {
        Some(bytes) if bytes.as_slice() == call => Ok(Some(words)),
        _ => Ok(None),
    }
}

/// The bytes of the call that words name.
fn named_call(alloc: Global, database: Database, words: &[Bytes]) -> Result<Option<Bytes>, NoMemory>
    ensures { IfOk result (λ bytes. bytes ≡ call_of database words.now) }
{
    match database {
        Database::Location => vl_calls::call_words(alloc, words),
        Database::Protection => pt_calls::call_words(alloc, words),
    }
}

/// The name of a call, and its fields.
fn words_in(alloc: Global, database: Database, call: &[u8]) -> Result<Vec<Bytes>, NotRead> {
    let mut words = WordList::new(alloc);
    let mut from = XdrReader::new(call);
    let number = from.get_u32()?;
    match database {
        Database::Location => location_words(&mut words, number, &mut from)?,
        Database::Protection => protection_words(&mut words, number, &mut from)?,
    }
    Ok(words.finish())
}

fn location_words(
    words: &mut WordList,
    number: u32,
    from: &mut XdrReader<'_>,
) -> Result<(), NotRead> {
    let Some(kind) = vl_calls::CallKind::numbered(number) else {
        return Err(NotRead::None);
    };
    words.word(kind.word())?;
    for shape in kind.shapes() {
        location_field(words, *shape, from)?;
    }
    Ok(())
}

fn location_field(
    words: &mut WordList,
    shape: vl_calls::Shape,
    from: &mut XdrReader<'_>,
) -> Result<(), NotRead> {
    match shape {
        vl_calls::Shape::Number => words.number(from.get_u32()?)?,
        vl_calls::Shape::Signed => words.signed(from.get_i32()?)?,
        vl_calls::Shape::Truth => words.truth(from.get_bool()?)?,
        vl_calls::Shape::Name => words.text(from.get_bytes(MAX_TEXT)?)?,
        vl_calls::Shape::Entry => entry_words(words, from)?,
    }
    Ok(())
}

/// An entry: its name, its flags and four ids, and its sites, each of three numbers.
fn entry_words(words: &mut WordList, from: &mut XdrReader<'_>) -> Result<(), NotRead> {
    words.text(from.get_bytes(MAX_TEXT)?)?;
    for _ in 0..5 {
        words.number(from.get_u32()?)?;
    }
    let sites = from.get_count(MAX_SITES)?;
    words.number(sites)?;
    for _ in 0..sites {
        site_words(words, from)?;
    }
    Ok(())
}

/// The host of a site, its partition and its flags.
fn site_words(words: &mut WordList, from: &mut XdrReader<'_>) -> Result<(), NotRead> {
    words.number(from.get_u32()?)?;
    words.number(from.get_u32()?)?;
    words.number(from.get_u32()?)?;
    Ok(())
}

fn protection_words(
    words: &mut WordList,
    number: u32,
    from: &mut XdrReader<'_>,
) -> Result<(), NotRead> {
    let Some(kind) = pt_calls::CallKind::numbered(number) else {
        return Err(NotRead::None);
    };
    words.word(kind.word())?;
    for shape in kind.shapes() {
        protection_field(words, *shape, from)?;
    }
    Ok(())
}

/// A field; a list is none of a call that writes.
fn protection_field(
    words: &mut WordList,
    shape: pt_calls::Shape,
    from: &mut XdrReader<'_>,
) -> Result<(), NotRead> {
    match shape {
        pt_calls::Shape::Number => words.number(from.get_u32()?)?,
        pt_calls::Shape::Id => words.signed(from.get_i32()?)?,
        pt_calls::Shape::Truth => words.truth(from.get_bool()?)?,
        pt_calls::Shape::Name => words.text(from.get_bytes(MAX_TEXT)?)?,
        pt_calls::Shape::Names | pt_calls::Shape::Ids => return Err(NotRead::None),
    }
    Ok(())
}
