//! Entries, as the bytes of their blocks, the first head, and the addresses of the servers as they stand in a head.
ghost use Rattle.std.specs.Prelude.{◌≡◌, ◌==◌, ◌≤◌, ◌<◌, IfOk, IfSome, length, map};
ghost use Rattle.std.specs.List.{All, position};
ghost use Rattle.db_blocks.specs.Bytes.{words};
ghost use Rattle.vldb_entries.specs.Location.{IsRecord, IsSite, first_location};
ghost use Rattle.vldb_entries.specs.Forms.{block_of, head_of, numbers_of, place_of};
ghost use Rattle.vldb_entries.specs.declared.layout.TheConstants.{ADDRESSES_LEN, HEAD_LEN, PLACES};

use crate::entries::{VlEntry, VlSite};
use crate::layout::{NAME_FIELD, PLACES, SITES_FIELD};
use db_blocks::{BLOCK_LEN, Block, push_filled, push_words, push_zeros};
use std::alloc::{AllocError, Global};

/// The word with which an image begins.
const DATABASE: u32 = 0x564C_4442;

/// The format of an image.
const FORMAT: u32 = 1;

/// The first word of an entry's block.
pub const ENTRY: u32 = 1;

/// The next volume id at first.
pub const FIRST_VOLUME: u32 = 536_870_912;

/// Where an address stands among them.
fn position_of(addresses: &[u32; PLACES], host: u32) -> Option<usize>
    ensures at { result ≡ position (λ a. a == host) addresses.now }
    ensures within { IfSome result (λ k. k < PLACES) }
{
    addresses.iter().position(|a| *a == host)
}

/// The place of a server, from 1 on; 0 where it has none.
fn place_of(addresses: &[u32; PLACES], host: u32) -> u8
    ensures { result ≡ place_of addresses.now host }
{
    match position_of(addresses, host) {
        Some(k) => k as u8 + 1,
        None => 0,
    }
}

fn places_of(
    alloc: Global,
    addresses: &[u32; PLACES],
    sites: &[VlSite],
) -> Result<Vec<u8>, AllocError>
    ensures { IfOk result (λ v. v.items ≡ map (λ site. place_of addresses.now site.host) sites.now) }
{
    let mut places = Vec::new(alloc);
    for site in sites {
        places.push(place_of(addresses, site.host))?;
    }
    Ok(places)
}

fn partitions_of(alloc: Global, sites: &[VlSite]) -> Result<Vec<u8>, AllocError>
    requires { All IsSite sites.now }
    ensures { IfOk result (λ v. v.items ≡ map (λ site. site.partition) sites.now) }
{
    let mut partitions = Vec::new(alloc);
    for site in sites {
        partitions.push(site.partition as u8)?;
    }
    Ok(partitions)
}

fn flags_of(alloc: Global, sites: &[VlSite]) -> Result<Vec<u8>, AllocError>
    requires { All IsSite sites.now }
    ensures { IfOk result (λ v. v.items ≡ map (λ site. site.flags) sites.now) }
{
    let mut flags = Vec::new(alloc);
    for site in sites {
        flags.push(site.flags as u8)?;
    }
    Ok(flags)
}

/// The numbers at the front of an entry's block.
fn numbers_of(e: &VlEntry) -> [u32; 9]
    requires { length e.now.sites ≤ 13 }
    ensures { result ≡ numbers_of e.now }
{
    [
        ENTRY,
        e.flags,
        e.rw,
        e.ro,
        e.backup,
        e.clone_id,
        e.lock_op,
        e.lock_moment,
        e.sites.as_slice().len() as u32,
    ]
}

/// The fields of an entry's block, one behind the other.
#[tactic(auto, unfolding(crate::specs::Forms::block_of))]
fn fields_of(alloc: Global, addresses: &[u32; PLACES], e: &VlEntry) -> Result<Vec<u8>, AllocError>
    requires { IsRecord e.now }
    ensures { IfOk result (λ block. block.items ≡ block_of addresses.now e.now) }
{
    let sites = e.sites.as_slice();
    let mut block = Vec::new(alloc);
    push_words(&mut block, &numbers_of(e))?;
    push_zeros(&mut block, 16)?;
    push_filled(&mut block, NAME_FIELD, e.name.as_slice())?;
    push_filled(
        &mut block,
        SITES_FIELD,
        &places_of(alloc, addresses, sites)?,
    )?;
    push_filled(&mut block, SITES_FIELD, &partitions_of(alloc, sites)?)?;
    push_filled(&mut block, SITES_FIELD, &flags_of(alloc, sites)?)?;
    push_zeros(&mut block, 37)?;
    Ok(block)
}

/// An entry's block, of which the words of chains are 0. For want of memory for its fields there is none.
pub fn block_of(alloc: Global, addresses: &[u32; PLACES], e: &VlEntry) -> Result<Block, AllocError>
    requires { IsRecord e.now }
    ensures { IfOk result (λ block. block ≡ block_of addresses.now e.now) }
{
    let fields = fields_of(alloc, addresses, e)?;
    let mut block = [0; BLOCK_LEN];
    block.copy_from_slice(&fields);
    Ok(block)
}

/// The image that the first change makes of the empty one.
#[tactic(auto, unfolding(crate::specs::Forms::head_of, db_blocks::specs::Bytes::words))]
pub fn first_head(alloc: Global) -> Result<Vec<u8>, AllocError>
    ensures value { IfOk result (λ head. head.items ≡ head_of first_location 0) }
    ensures len { IfOk result (λ head. length head.items ≡ HEAD_LEN) }
{
    let mut head = Vec::new(alloc);
    push_words(&mut head, &[DATABASE, FORMAT, FIRST_VOLUME, 0])?;
    push_zeros(&mut head, 48)?;
    push_words(&mut head, &[0; PLACES])?;
    push_zeros(&mut head, 2048)?;
    Ok(head)
}

/// The addresses of the places, as they stand in the head.
pub fn address_words(alloc: Global, addresses: &[u32; PLACES]) -> Result<Vec<u8>, AllocError>
    ensures value { IfOk result (λ v. v.items ≡ words addresses.now) }
    ensures len { IfOk result (λ v. length v.items ≡ ADDRESSES_LEN) }
{
    let mut out = Vec::new(alloc);
    push_words(&mut out, addresses)?;
    Ok(out)
}
