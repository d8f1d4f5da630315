//! Entries, and the images that are written of them.
ghost use Rattle.std.specs.Prelude.{◌≡◌, ◌++◌, OnOk, IfOk, length};
ghost use Rattle.std.specs.List.{flat_map};
ghost use Rattle.prdb_layout.specs.State.{fixed, fixed_entries, administrators, initial_state};
ghost use Rattle.prdb_layout.specs.Layout.{head_of, numbers_of, block_of, layout, entry_of};

use crate::blocks::{ANONYMOUS, BLOCK_COUNT_AT, HEAD_LEN, NAME_AT, NAME_FIELD};
use db_blocks::{BLOCK_LEN, push_filled, push_words, push_zeros};
use std::alloc::{AllocError, Global};
use ubik_types::WORD_LEN;

/// A block of an entry begins with this word.
pub const ENTRY: u32 = 1;

/// The word with which an image begins.
const DATABASE: u32 = 0x5052_4442;

/// The format of an image.
const FORMAT: u32 = 1;

/// The least group id of the first entries.
pub const MAX_GROUP: i32 = -205;

/// What a user begins with (own).
pub const USER_FLAGS: u32 = 131_072;

const GROUP_FLAGS: u32 = 131_584;

/// The id of `system:administrators`, which owns what has no other owner.
pub const ADMINISTRATORS: i32 = -204;

/// One of the first entries.
#[derive(Clone, Copy)]
struct Entry<'a> {
    name: &'a [u8],
    flags: u32,
    id: i32,
    owner: i32,
    creator: i32,
    quota: i32,
}

impl<'a> Entry<'a> {
    /// One of the entries that are always there.
    fn fixed(name: &'a [u8], flags: u32, id: i32) -> Self
        ensures { entry_of result ≡ fixed name.now flags id }
    {
        Entry {
            name,
            flags,
            id,
            owner: ADMINISTRATORS,
            creator: ADMINISTRATORS,
            quota: 0,
        }
    }
}

#[tactic(auto, unfolding(crate::specs::Layout::numbers_of))]
fn numbers(entry: &Entry<'_>) -> [u32; 8]
    ensures { result ≡ numbers_of (entry_of entry.now) }
{
    [
        ENTRY,
        entry.flags,
        entry.id.cast_unsigned(),
        entry.owner.cast_unsigned(),
        entry.creator.cast_unsigned(),
        entry.quota.cast_unsigned(),
        0,
        0,
    ]
}

/// Writes the entry's block at the end.
#[tactic(auto, unfolding(crate::specs::Layout::block_of))]
fn push_block(out: &mut Vec<u8>, entry: &Entry<'_>) -> Result<(), AllocError>
    ensures { OnOk result (out.new.items ≡ out.old.items ++ block_of (entry_of entry.now)) }
{
    push_words(out, &numbers(entry))?;
    push_filled(out, NAME_FIELD, entry.name)?;
    push_zeros(out, BLOCK_LEN - NAME_AT - NAME_FIELD)?;
    Ok(())
}

#[tactic(auto, unfolding(crate::specs::Layout::head_of, crate::specs::State::fixed_entries))]
fn push_head(out: &mut Vec<u8>) -> Result<(), AllocError>
    ensures { OnOk result (out.new.items ≡ out.old.items ++ head_of initial_state) }
{
    push_words(out, &[DATABASE, FORMAT, 0, MAX_GROUP.cast_unsigned(), 6])?;
    push_zeros(out, HEAD_LEN as usize - BLOCK_COUNT_AT - WORD_LEN)?;
    Ok(())
}

fn push_fixed_entry(out: &mut Vec<u8>, name: &[u8], flags: u32, id: i32) -> Result<(), AllocError>
    ensures { OnOk result (out.new.items ≡ out.old.items ++ block_of (fixed name.now flags id)) }
{
    push_block(out, &Entry::fixed(name, flags, id))?;
    Ok(())
}

fn push_fixed(out: &mut Vec<u8>) -> Result<(), AllocError>
    ensures { OnOk result (out.new.items ≡ out.old.items ++ flat_map block_of fixed_entries) }
{
    push_fixed_entry(out, b"system:anyuser", GROUP_FLAGS, -101)?;
    push_fixed_entry(out, b"system:authuser", GROUP_FLAGS, -102)?;
    push_fixed_entry(out, b"system:ptsviewers", GROUP_FLAGS, -203)?;
    push_fixed_entry(out, b"system:administrators", GROUP_FLAGS, ADMINISTRATORS)?;
    push_fixed_entry(out, b"system:backup", GROUP_FLAGS, -205)?;
    push_fixed_entry(out, b"anonymous", USER_FLAGS, ANONYMOUS)?;
    Ok(())
}

/// The image of the first state, without words of chains: the head and the fixed entries.
#[tactic(auto, unfolding(crate::specs::Layout::layout))]
pub fn initial_image(alloc: Global) -> Result<Vec<u8>, AllocError>
    ensures value { IfOk result (λ image. image.items ≡ layout initial_state) }
    ensures len { IfOk result (λ image. length image.items ≡ 3264) }
{
    let mut image = Vec::new(alloc);
    push_head(&mut image)?;
    push_fixed(&mut image)?;
    Ok(image)
}
