//! The words of chains.
ghost use Rattle.std.specs.Prelude.{◌≡◌, ◌/◌, ◌<◌, ◌^◌, if◌then◌else◌};
ghost use Rattle.db_chains.specs.Links.{AreLinks, block_of, kind_of, names_block, next_in, next_place};

use db_blocks::block_place;

/// How the words of chains of one sort name blocks, and where the next words stand. Words and numbers of bytes are as they stand in an
/// image; the first block has the number 1 in a word.
#[derive(Clone, Copy)]
pub struct Links {
    /// The length of the image's head, in bytes.
    pub head: u32,
    /// The first word of a block that may stand in such a chain.
    pub mark: u32,
    /// Where the next word of the first kind stands in a block; those of further kinds stand behind it, four bytes each.
    pub next: u32,
    /// A word is the number of a block times this, and the kind.
    pub step: u32,
    /// How many kinds there are, the first being 0.
    pub kinds: u32,
}

/// The block that a word names, of so many, the first being 0; none where it names no block or no kind that there is.
pub(crate) fn block_of(links: Links, count: u32, word: u32) -> Option<u32>
    requires { 0 < links.step }
    ensures { result ≡ (if names_block links count word then Some (block_of links word) else None) }
{
    let number = word / links.step;
    let kind = word % links.step;
    if number == 0 || number > count || kind >= links.kinds {
        return None;
    }
    Some(number - 1)
}

/// Where a word's next one stands in its block.
pub(crate) fn next_in(links: Links, word: u32) -> u32
    requires links { AreLinks links }
    requires kind { kind_of links word < links.kinds }
    ensures { result ≡ next_in links word }
{
    links.next + 4 * (word % links.step)
}

/// Where a word's next one stands in the image.
pub(crate) fn next_place(links: Links, word: u32) -> u32
    requires links { AreLinks links }
    requires kind { kind_of links word < links.kinds }
    requires some { 0 < word / links.step }
    requires block { word / links.step < 2 ^ 24 }
    ensures { result ≡ next_place links word }
{
    block_place(links.head, word / links.step - 1) + next_in(links, word)
}
