//! Words that come into chains, and go out of them.
ghost use Rattle.std.specs.Prelude.{◌≡◌, ◌+◌, ◌*◌, ◌<◌, ◌≤◌, ◌^◌, ◌∷◌, ◌++◌, ℕ, [], List, IfSome, IfOk, IfErr, IsErrOf, IsSomeAnd, OnOk, drop, length, slice_get};
ghost use Rattle.std.specs.List.{AllByRecursion};
ghost use Rattle.db_image.specs.Draft.{put_cost};
ghost use Rattle.db_image.specs.Images.{IsOfImage};
ghost use Rattle.db_blocks.specs.Blocks.{word_at};
ghost use Rattle.db_blocks.specs.Ends.{Becomes, HasCause};
ghost use Rattle.db_blocks.specs.declared.blocks.TheConstants.{BLOCK_LEN};
ghost use Rattle.db_chains.specs.Chains.{HasChain};
ghost use Rattle.db_chains.specs.Changes.{IsHeadPlace, IsPlaced, MayEnter, first_at, is_until, put_between, put_in, put_last, taken_out, without, without_first};
ghost use Rattle.db_chains.specs.Ends.{DraftsAtMost, HasSome, HasWord, IsBadFirst, IsBadOrLacks, IsBadWhere, walk_cost};
ghost use Rattle.db_chains.specs.Links.{AreLinks};
ghost use Rattle.db_chains.specs.Walks.{IsBad};

use crate::links::{Links, next_place};
use crate::walks::{StopAt, read_link, read_word, walk};
use db_blocks::{Block, block_count};
use db_image::{Draft, ImageRead, RecordFault};
use ubik_types::WORD_LEN;

/// How far a change walks along a chain.
#[derive(Clone, Copy)]
pub(crate) enum Until {
    /// To its end.
    End,
    /// To a word.
    Word(u32),
    /// To the first word above a number.
    Above(u32),
}

impl StopAt for Until {
    ghost use Rattle.db_chains.specs.Changes.{is_until};

    ghost test = { is_until };

    fn stops(&self, word: u32, _block: &Block) -> bool {
        match *self {
            Until::End => false,
            Until::Word(sought) => word == sought,
            Until::Above(number) => number < word,
        }
    }
}

/// Puts a word in at a place; what stood there stands behind it.
pub(crate) fn put_in<I: ImageRead>(
    d: &mut Draft<I>,
    links: Links,
    at: u32,
    word: u32,
) -> Result<(), RecordFault>
    requires links { AreLinks links }
    requires len { d.old.len < 2 ^ 31 + 2 ^ 20 }
    requires at { at + WORD_LEN ≤ d.old.len }
    requires word { IsPlaced links d.old.len word }
    ensures bytes { OnOk result (Becomes (put_in links at word) d.old d.new) }
    ensures told { IfSome d.old.bytes (λ image. length image ≡ d.old.len) }
    ensures len { d.new.len ≡ d.old.len }
    ensures fault { IfErr result IsOfImage }
    ensures frame { DraftsAtMost I.ImageRead (WORD_LEN + 2 * put_cost d.old.layout WORD_LEN) d.old d.new
        (IsErrOf result RecordFault.DiskFault) }
{
    let next = read_word(d, at)?;
    let place = next_place(links, word);
    d.put(place, &next.to_be_bytes())?;
    d.put(at, &word.to_be_bytes())
}

/// Takes the word at a place out; what stood behind it stands there, and nothing behind the word.
pub(crate) fn take_at<I: ImageRead>(
    d: &mut Draft<I>,
    links: Links,
    at: u32,
    word: u32,
) -> Result<(), RecordFault>
    requires links { AreLinks links }
    requires len { d.old.len < 2 ^ 31 + 2 ^ 20 }
    requires at { at + WORD_LEN ≤ d.old.len }
    requires word { IsPlaced links d.old.len word }
    requires stands { IfSome d.old.bytes (λ image. word ≡ word_at image at) }
    ensures bytes { OnOk result (Becomes (taken_out links at) d.old d.new) }
    ensures told { IfSome d.old.bytes (λ image. length image ≡ d.old.len) }
    ensures len { d.new.len ≡ d.old.len }
    ensures fault { IfErr result IsOfImage }
    ensures frame { DraftsAtMost I.ImageRead (WORD_LEN + 2 * put_cost d.old.layout WORD_LEN) d.old d.new
        (IsErrOf result RecordFault.DiskFault) }
{
    let place = next_place(links, word);
    let next = read_word(d, place)?;
    d.put(at, &next.to_be_bytes())?;
    d.put(place, &0u32.to_be_bytes())
}

/// Puts a word in front of the chain whose first word stands at a place. After an `Err` a part of the change may be in the draft.
pub fn put_first<I: ImageRead>(
    d: &mut Draft<I>,
    links: Links,
    at: u32,
    word: u32,
) -> Result<(), RecordFault>
    requires links { AreLinks links }
    requires len { d.old.len < 2 ^ 31 + 2 ^ 20 }
    requires at { at + WORD_LEN ≤ d.old.len }
    requires apart { IsHeadPlace links at }
    requires word { IsPlaced links d.old.len word }
    ensures bytes { OnOk result (Becomes (put_in links at word) d.old d.new) }
    ensures chain { OnOk result (IfSome d.old.bytes (λ image. (ws : List ℕ) → HasChain links image at ws → MayEnter links image word ws
        → IsSomeAnd d.new.bytes (λ new. HasChain links new at (word ∷ ws)))) }
    ensures len { d.new.len ≡ d.old.len }
    ensures fault { IfErr result IsOfImage }
    ensures frame { DraftsAtMost I.ImageRead (WORD_LEN + 2 * put_cost d.old.layout WORD_LEN) d.old d.new
        (IsErrOf result RecordFault.DiskFault) }
{
    put_in(d, links, at, word)
}

/// Puts a word behind the chain whose first word stands at a place. After an `Err` a part of the change may be in the draft.
pub fn put_last<I: ImageRead>(
    d: &mut Draft<I>,
    links: Links,
    at: u32,
    word: u32,
) -> Result<(), RecordFault>
    requires links { AreLinks links }
    requires len { d.old.len < 2 ^ 31 + 2 ^ 20 }
    requires at { at + WORD_LEN ≤ d.old.len }
    requires apart { IsHeadPlace links at }
    requires word { IsPlaced links d.old.len word }
    ensures bytes { OnOk result (Becomes (put_last links at word) d.old d.new) }
    ensures chain { OnOk result (IfSome d.old.bytes (λ image. (ws : List ℕ) → HasChain links image at ws → MayEnter links image word ws
        → IsSomeAnd d.new.bytes (λ new. HasChain links new at (ws ++ word ∷ [])))) }
    ensures len { d.new.len ≡ d.old.len }
    ensures bad { IfErr result (IsBadWhere d.old.bytes (IsBad links (is_until Until.End) at)) }
    ensures fault { IfErr result (HasCause d.old.bytes (HasSome links at)) }
    ensures frame { DraftsAtMost I.ImageRead (walk_cost links d.old.len + WORD_LEN + 2 * put_cost d.old.layout WORD_LEN) d.old d.new
        (IsErrOf result RecordFault.DiskFault) }
{
    let stop = walk(d, links, at, &Until::End)?;
    put_in(d, links, stop.place, word)
}

/// Puts a word into the chain whose first word stands at a place, before the first word above it: an ascending chain stays one. After an
/// `Err` a part of the change may be in the draft.
pub fn put_between<I: ImageRead>(
    d: &mut Draft<I>,
    links: Links,
    at: u32,
    word: u32,
) -> Result<(), RecordFault>
    requires links { AreLinks links }
    requires len { d.old.len < 2 ^ 31 + 2 ^ 20 }
    requires at { at + WORD_LEN ≤ d.old.len }
    requires apart { IsHeadPlace links at }
    requires word { IsPlaced links d.old.len word }
    ensures bytes { OnOk result (Becomes (put_between links at word) d.old d.new) }
    ensures chain { OnOk result (IfSome d.old.bytes (λ image. (below above : List ℕ) → HasChain links image at (below ++ above)
        → MayEnter links image word (below ++ above) → AllByRecursion (λ v. v < word) below → AllByRecursion (λ v. word < v) above
        → IsSomeAnd d.new.bytes (λ new. HasChain links new at (below ++ word ∷ above)))) }
    ensures len { d.new.len ≡ d.old.len }
    ensures bad { IfErr result (IsBadWhere d.old.bytes (IsBad links (is_until (Until.Above word)) at)) }
    ensures fault { IfErr result (HasCause d.old.bytes (HasSome links at)) }
    ensures frame { DraftsAtMost I.ImageRead (walk_cost links d.old.len + WORD_LEN + 2 * put_cost d.old.layout WORD_LEN) d.old d.new
        (IsErrOf result RecordFault.DiskFault) }
{
    let stop = walk(d, links, at, &Until::Above(word))?;
    put_in(d, links, stop.place, word)
}

/// Takes a word out of the chain whose first word stands at a place; nothing stands behind it then. A bad record where the chain ends
/// without it. After an `Err` a part of the change may be in the draft.
pub fn take_out<I: ImageRead>(
    d: &mut Draft<I>,
    links: Links,
    at: u32,
    word: u32,
) -> Result<(), RecordFault>
    requires links { AreLinks links }
    requires len { d.old.len < 2 ^ 31 + 2 ^ 20 }
    requires at { at + WORD_LEN ≤ d.old.len }
    requires apart { IsHeadPlace links at }
    ensures bytes { OnOk result (Becomes (without links at word) d.old d.new) }
    ensures chain { OnOk result (IfSome d.old.bytes (λ image. (front back : List ℕ) → HasChain links image at (front ++ word ∷ back)
        → IsSomeAnd d.new.bytes (λ new. HasChain links new at (front ++ back)))) }
    ensures len { d.new.len ≡ d.old.len }
    ensures bad { IfErr result (IsBadWhere d.old.bytes (IsBadOrLacks links at word)) }
    ensures fault { IfErr result (HasCause d.old.bytes (HasWord links at word)) }
    ensures frame { DraftsAtMost I.ImageRead (walk_cost links d.old.len + WORD_LEN + 2 * put_cost d.old.layout WORD_LEN) d.old d.new
        (IsErrOf result RecordFault.DiskFault) }
{
    let stop = walk(d, links, at, &Until::Word(word))?;
    let Some(link) = stop.link else {
        return Err(RecordFault::BadRecord { at: stop.place });
    };
    take_at(d, links, stop.place, link.word)
}

/// Takes the first word out of the chain whose first word stands at a place; nothing stands behind it then. None where the chain has no
/// word. After an `Err` a part of the change may be in the draft.
pub fn take_first<I: ImageRead>(
    d: &mut Draft<I>,
    links: Links,
    at: u32,
) -> Result<Option<u32>, RecordFault>
    requires links { AreLinks links }
    requires len { d.old.len < 2 ^ 31 + 2 ^ 20 }
    requires at { at + WORD_LEN ≤ d.old.len }
    requires apart { IsHeadPlace links at }
    ensures word { IfOk result (λ word. IfSome d.old.bytes (λ image. word ≡ first_at image at)) }
    ensures bytes { OnOk result (Becomes (without_first links at) d.old d.new) }
    ensures chain { IfOk result (λ word. IfSome d.old.bytes (λ image. (ws : List ℕ) → HasChain links image at ws
        → (word ≡ slice_get ws 0) × IsSomeAnd d.new.bytes (λ new. HasChain links new at (drop 1 ws)))) }
    ensures placed { IfOk result (λ word. IfSome word (IsPlaced links d.old.len)) }
    ensures len { d.new.len ≡ d.old.len }
    ensures bad { IfErr result (IsBadWhere d.old.bytes (IsBadFirst links at)) }
    ensures fault { IfErr result (HasCause d.old.bytes (HasSome links at)) }
    ensures frame { DraftsAtMost I.ImageRead (2 * WORD_LEN + BLOCK_LEN + 2 * put_cost d.old.layout WORD_LEN) d.old d.new
        (IsErrOf result RecordFault.DiskFault) }
{
    let count = block_count(links.head, d.len())?;
    let word = read_word(d, at)?;
    if word == 0 {
        return Ok(None);
    }
    let link = read_link(d, links, count, at, word)?;
    take_at(d, links, at, link.word)?;
    Ok(Some(link.word))
}
