//! Entries as they stand in a block.
ghost use Rattle.std.specs.Prelude.{◌≡◌, ◌+◌, ◌≤◌, ◌==◌, length};
ghost use Rattle.std.specs.List.{position, position_or_len};
ghost use Rattle.db_blocks.specs.Blocks.{kind_of};
ghost use Rattle.prdb_layout.specs.Blocks.{block_name};
ghost use Rattle.prdb_layout.specs.Records.{entry_in, signed_at};
ghost use Rattle.entry_scans.specs.Pages.{pair_count_in};
ghost use Rattle.entry_scans.specs.Views.{viewed};

use db_blocks::{Block, word_at};
use prdb_layout::{
    CREATOR_AT, FLAGS_AT, ID_AT, NAME_AT, NAME_FIELD, OWNER_AT, PAIR_COUNT_AT, QUOTA_AT,
};
use ubik_types::WORD_LEN;

/// An entry as it stands in a block: a user, whose id is positive, or a group, whose id is negative.
#[derive(Clone, Copy)]
pub struct EntryView<'a> {
    pub name: &'a [u8],
    pub flags: u32,
    pub id: i32,
    /// The id of the entry that owns it; 0 where none does.
    pub owner: i32,
    /// The id of the fixed entry for which it was made.
    pub creator: i32,
    pub quota: i32,
}

/// What a block is, by its first word.
pub fn kind_of(block: &Block) -> u32
    ensures { result ≡ kind_of block.now }
{
    word_at(block, 0)
}

/// The signed number at a place.
pub fn signed_at(bytes: &[u8], at: usize) -> i32
    requires { at + WORD_LEN ≤ length bytes.now }
    ensures { result ≡ signed_at bytes.now at }
{
    word_at(bytes, at).cast_signed()
}

fn first_zero(field: &[u8]) -> Option<usize>
    ensures { result ≡ position (λ b. b == 0) field.now }
{
    field.iter().position(|b| *b == 0)
}

/// The length of the text before the first zero byte.
fn text_len(field: &[u8]) -> usize
    ensures { result ≡ position_or_len (λ b. b == 0) field.now }
{
    first_zero(field).unwrap_or(field.len())
}

/// The name in a block.
#[tactic(auto, unfolding(prdb_layout::specs::Blocks::block_name))]
fn block_name(block: &Block) -> &[u8]
    ensures { result.now ≡ block_name block.now }
{
    let field = &block[NAME_AT..NAME_AT + NAME_FIELD];
    &field[..text_len(field)]
}

/// The entry whose fields stand in a block.
pub fn entry_in(block: &Block) -> EntryView<'_>
    ensures { viewed result ≡ entry_in block.now }
{
    EntryView {
        name: block_name(block),
        flags: word_at(block, FLAGS_AT),
        id: signed_at(block, ID_AT),
        owner: signed_at(block, OWNER_AT),
        creator: signed_at(block, CREATOR_AT),
        quota: signed_at(block, QUOTA_AT),
    }
}

/// How many pairs an entry's block tells.
pub fn pair_count_in(block: &Block) -> u32
    ensures { result ≡ pair_count_in block.now }
{
    word_at(block, PAIR_COUNT_AT)
}
