//! Walks along a chain.
ghost use Rattle.std.specs.Prelude.{◌≡◌, ◌+◌, ◌*◌, ◌<◌, ◌≤◌, ◌^◌, ℕ, Bool, false, List, IfSome, IfOk, IfErr, IsErrOf, length};
ghost use Rattle.std.specs.Option.{option_map};
ghost use Rattle.db_image.specs.Images.{IsOfImage};
ghost use Rattle.db_blocks.specs.Blocks.{block_in, block_place, word_at};
ghost use Rattle.db_blocks.specs.Ends.{HasCause};
ghost use Rattle.db_blocks.specs.declared.blocks.TheConstants.{BLOCK_LEN};
ghost use Rattle.db_chains.specs.Chains.{HasChain};
ghost use Rattle.db_chains.specs.Changes.{IsPlaced};
ghost use Rattle.db_chains.specs.Ends.{CostsAtMost, HasSome, IsBadWhere, LooksAtMost, walk_cost};
ghost use Rattle.db_chains.specs.Links.{AreLinks, is_right};
ghost use Rattle.db_chains.specs.Walks.{IsBad, IsFound, IsLink, IsNamed, IsStop, first_met, meets, stop_place};

use crate::links::{Links, block_of, next_in, next_place};
use db_blocks::{BLOCK_LEN, Block, block_count, block_place, word_at};
use db_image::{Draft, ImageRead, RecordFault};
use ubik_types::WORD_LEN;

/// A word of a chain, and the block that it names.
#[derive(Clone, Copy)]
pub struct Link {
    pub word: u32,
    pub block: Block,
}

/// Where a walk stopped: the place of the word, and the link; none at the end of the chain.
#[derive(Clone, Copy)]
pub struct Stop {
    pub place: u32,
    pub link: Option<Link>,
}

/// What a walk along a chain looks for.
pub trait StopAt {
    /// Whether a word and its block are it.
    ghost test: { Self → ℕ → List ℕ → Bool };

    fn stops(&self, word: u32, block: &Block) -> bool
        ensures { result ≡ test self.now word block.now };
}

/// The word at a place of the draft.
pub(crate) fn read_word<I: ImageRead>(d: &mut Draft<I>, at: u32) -> Result<u32, RecordFault>
    requires { at + WORD_LEN ≤ d.old.len }
    ensures word { IfOk result (λ word. IfSome d.old.bytes (λ image. word ≡ word_at image at)) }
    ensures told { IfSome d.old.bytes (λ image. length image ≡ d.old.len) }
    ensures fault { IfErr result IsOfImage }
    ensures frame { LooksAtMost I.ImageRead WORD_LEN d.old d.new (IsErrOf result RecordFault.DiskFault) }
{
    let len = d.len();
    prove!(at as usize + WORD_LEN <= len as usize);
    let mut word = [0; WORD_LEN];
    d.read(at, &mut word).done()?;
    Ok(word_at(&word, 0))
}

/// A block of the draft, behind a head of this length.
#[tactic(auto, unfolding(db_blocks::specs::Blocks::block_in))]
fn read_block<I: ImageRead>(d: &mut Draft<I>, head: u32, number: u32) -> Result<Block, RecordFault>
    requires within { block_place head number + BLOCK_LEN ≤ d.old.len }
    requires len { d.old.len < 2 ^ 31 + 2 ^ 20 }
    requires head { head < 2 ^ 24 }
    ensures block { IfOk result (λ block. IfSome d.old.bytes (λ image. block ≡ block_in head image number)) }
    ensures fault { IfErr result IsOfImage }
    ensures frame { LooksAtMost I.ImageRead BLOCK_LEN d.old d.new (IsErrOf result RecordFault.DiskFault) }
{
    let at = block_place(head, number);
    let mut block = [0; BLOCK_LEN];
    d.read(at, &mut block).done()?;
    Ok(block)
}

/// The link of a word that stands at a place, among so many blocks.
pub(crate) fn read_link<I: ImageRead>(
    d: &mut Draft<I>,
    links: Links,
    count: u32,
    place: u32,
    word: u32,
) -> Result<Link, RecordFault>
    requires links { AreLinks links }
    requires len { d.old.len < 2 ^ 31 + 2 ^ 20 }
    requires count { d.old.len ≡ block_place links.head count }
    requires told { IfSome d.old.bytes (λ image. length image ≡ d.old.len) }
    requires word { IfSome d.old.bytes (λ image. word ≡ word_at image place) }
    ensures names { IfOk result (λ link. IsNamed links count link word) }
    ensures link { IfOk result (λ link. IfSome d.old.bytes (λ image. IsLink links image place link)) }
    ensures fault { IfErr result (IsBadWhere d.old.bytes (λ image bad. (bad ≡ place) × (is_right links image word ≡ false))) }
    ensures frame { LooksAtMost I.ImageRead BLOCK_LEN d.old d.new (IsErrOf result RecordFault.DiskFault) }
{
    let Some(number) = block_of(links, count, word) else {
        return Err(RecordFault::BadRecord { at: place });
    };
    let block = read_block(d, links.head, number)?;
    if word_at(&block, 0) != links.mark {
        return Err(RecordFault::BadRecord { at: place });
    }
    Ok(Link { word, block })
}

/// Walks along the chain whose first word stands at a place, to the first word that is what is looked for.
pub(crate) fn walk<I: ImageRead, S: StopAt>(
    d: &mut Draft<I>,
    links: Links,
    at: u32,
    sought: &S,
) -> Result<Stop, RecordFault>
    requires links { AreLinks links }
    requires len { d.old.len < 2 ^ 31 + 2 ^ 20 }
    requires at { at + WORD_LEN ≤ d.old.len }
    ensures stop { IfOk result (λ stop. IfSome d.old.bytes (λ image. IsStop links (S.test sought.now) image at stop)) }
    ensures within { IfOk result (λ stop. stop.place + WORD_LEN ≤ d.old.len) }
    ensures placed { IfOk result (λ stop. IfSome stop.link (λ f. IsPlaced links d.old.len f.word)) }
    ensures told { IfSome d.old.bytes (λ image. length image ≡ d.old.len) }
    ensures fault { IfErr result (IsBadWhere d.old.bytes (IsBad links (S.test sought.now) at)) }
    ensures frame { LooksAtMost I.ImageRead (walk_cost links d.old.len) d.old d.new (IsErrOf result RecordFault.DiskFault) }
    ensures cost { IfSome d.old.bytes (λ image. (ws : List ℕ) → HasChain links image at ws
        → CostsAtMost I.ImageRead (WORD_LEN + BLOCK_LEN * length ws) d.old d.new) }
{
    let count = block_count(links.head, d.len())?;
    let mut left = count * links.kinds;
    let mut place = at;
    let mut word = read_word(d, at)?;
    while word != 0 {
        if left == 0 {
            return Err(RecordFault::BadRecord { at: place });
        }
        let link = read_link(d, links, count, place, word)?;
        if sought.stops(word, &link.block) {
            return Ok(Stop {
                place,
                link: Some(link),
            });
        }
        left -= 1;
        place = next_place(links, word);
        word = word_at(&link.block, next_in(links, word) as usize);
    }
    Ok(Stop { place, link: None })
}

/// The first word of a chain that is what is looked for, and its block; the chain's first word stands at this place.
pub fn find<I: ImageRead, S: StopAt>(
    d: &mut Draft<I>,
    links: Links,
    at: u32,
    sought: &S,
) -> Result<Option<Link>, RecordFault>
    requires links { AreLinks links }
    requires len { d.old.len < 2 ^ 31 + 2 ^ 20 }
    requires at { at + WORD_LEN ≤ d.old.len }
    ensures exact { IfOk result (λ link. IfSome d.old.bytes (λ image.
        IsFound links (S.test sought.now) image (stop_place links (S.test sought.now) image at) link)) }
    ensures found { IfOk result (λ link. IfSome d.old.bytes (λ image. (ws : List ℕ) → HasChain links image at ws
        → option_map (λ f. f.word) link ≡ first_met (meets links (S.test sought.now) image) ws)) }
    ensures placed { IfOk result (λ link. IfSome link (λ f. IsPlaced links d.old.len f.word)) }
    ensures bad { IfErr result (IsBadWhere d.old.bytes (IsBad links (S.test sought.now) at)) }
    ensures fault { IfErr result (HasCause d.old.bytes (HasSome links at)) }
    ensures frame { LooksAtMost I.ImageRead (walk_cost links d.old.len) d.old d.new (IsErrOf result RecordFault.DiskFault) }
    ensures cost { IfSome d.old.bytes (λ image. (ws : List ℕ) → HasChain links image at ws
        → CostsAtMost I.ImageRead (WORD_LEN + BLOCK_LEN * length ws) d.old d.new) }
{
    Ok(walk(d, links, at, sought)?.link)
}
