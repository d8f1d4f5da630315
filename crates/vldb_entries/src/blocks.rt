//! Entries, read from their blocks.
ghost use Rattle.std.specs.Prelude.{◌≡◌, ◌==◌, ◌<◌, ◌∷◌, slice_index, map, min, IfOk};
ghost use Rattle.std.specs.List.{position, position_or_len, range_with_len};
ghost use Rattle.db_blocks.specs.Blocks.{word_at, kind_of};
ghost use Rattle.vldb_entries.specs.Forms.{entry_in, has_id_in, has_name, name_in, site_in};
ghost use Rattle.vldb_entries.specs.declared.layout.TheConstants.{COUNT_AT, SITES_FIELD};

use crate::entries::{SiteList, VlEntry, VlSite};
use crate::forms::ENTRY;
use crate::layout::{
    BACKUP_AT, CLONE_AT, COUNT_AT, FLAGS_AT, LOCK_MOMENT_AT, LOCK_OP_AT, NAME_AT, NAME_FIELD,
    PARTITIONS_AT, PLACES, PLACES_AT, RO_AT, RW_AT, SITE_FLAGS_AT, SITES_FIELD,
};
use call_grammar::Items;
use db_blocks::{Block, word_at};
use std::alloc::Global;
use ubik_types::{NoMemory, bytes_of};

/// What a block is, by its first word.
pub fn kind_of(block: &Block) -> u32
    ensures { result ≡ kind_of block.now }
{
    word_at(block, 0)
}

/// Whether a block is an entry's of this name.
pub fn has_name(block: &Block, name: &[u8]) -> bool
    ensures { result ≡ has_name name.now block.now }
{
    kind_of(block) == ENTRY && name_in(block) == name
}

/// Whether a block is an entry's of which one of the three ids is this one; 0 is no entry's.
pub fn has_id(block: &Block, id: u32) -> bool
    ensures { result ≡ has_id_in id block.now }
{
    kind_of(block) == ENTRY
        && (id != 0
            && (word_at(block, RW_AT) == id
                || word_at(block, RO_AT) == id
                || word_at(block, BACKUP_AT) == id))
}

fn first_zero(field: &[u8]) -> Option<usize>
    ensures { result ≡ position (λ b. b == 0) field.now }
{
    field.iter().position(|b| *b == 0)
}

/// The length of the text before the first zero byte.
fn text_len(field: &[u8]) -> usize
    ensures { result ≡ position_or_len (λ b. b == 0) field.now }
{
    first_zero(field).unwrap_or(field.len())
}

/// The name in an entry's block.
#[tactic(auto, unfolding(crate::specs::Forms::name_in))]
pub fn name_in(block: &Block) -> &[u8]
    ensures { result.now ≡ name_in block.now }
{
    let field = &block[NAME_AT..NAME_AT + NAME_FIELD];
    &field[..text_len(field)]
}

/// The server of a place; 0 where the place is.
fn host_at(addresses: &[u32; PLACES], place: u8) -> u32
    ensures { result ≡ slice_index (0 ∷ addresses.now) place }
{
    match (place as usize).checked_sub(1) {
        Some(k) => addresses[k],
        None => 0,
    }
}

/// A site of an entry's block.
pub fn site_in(addresses: &[u32; PLACES], block: &Block, k: usize) -> VlSite
    requires { k < SITES_FIELD }
    ensures { result ≡ site_in addresses.now block.now k }
{
    VlSite {
        host: host_at(addresses, block[PLACES_AT + k]),
        partition: u32::from(block[PARTITIONS_AT + k]),
        flags: u32::from(block[SITE_FLAGS_AT + k]),
    }
}

/// The sites of an entry's block, at most as many as there is a field for.
fn sites_in(alloc: Global, addresses: &[u32; PLACES], block: &Block) -> Result<SiteList, NoMemory>
    ensures { IfOk result (λ sites. sites ≡ map (site_in addresses.now block.now) (range_with_len 0 (min SITES_FIELD (word_at block.now COUNT_AT)))) }
{
    let count = (word_at(block, COUNT_AT) as usize).min(SITES_FIELD);
    let mut sites = Vec::new(alloc);
    for k in 0..count {
        sites.push(site_in(addresses, block, k))?;
    }
    Ok(Items::new(sites))
}

/// The entry whose fields stand in a block.
#[tactic(auto, unfolding(crate::specs::Forms::entry_in))]
pub fn entry_in(
    alloc: Global,
    addresses: &[u32; PLACES],
    block: &Block,
) -> Result<VlEntry, NoMemory>
    ensures { IfOk result (λ e. e ≡ entry_in addresses.now block.now) }
{
    Ok(VlEntry {
        name: bytes_of(alloc, name_in(block))?,
        flags: word_at(block, FLAGS_AT),
        rw: word_at(block, RW_AT),
        ro: word_at(block, RO_AT),
        backup: word_at(block, BACKUP_AT),
        clone_id: word_at(block, CLONE_AT),
        sites: sites_in(alloc, addresses, block)?,
        lock_op: word_at(block, LOCK_OP_AT),
        lock_moment: word_at(block, LOCK_MOMENT_AT),
    })
}
