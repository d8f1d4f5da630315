//! Reads the pages that a store keeps, again and again, or copies as many bytes from memory to memory.
ghost use Rattle.std.specs.Prelude.{◌≡◌, ◌≤◌, IfOk, OnOk, length};
ghost use Rattle.ubik_store.specs.Store.{IsSound};

use crate::store_commits::{filled_store, zero_bytes};
use disk_base::{Disk, MemDisk};
use std::alloc::Global;
use std::mem;
use ubik_store::{Store, StoreFault};
use ubik_types::NoMemory;

/// How many pages are read in a round: a store keeps so many.
const PAGES: u32 = 64;

/// How many bytes a page has.
const PAGE: usize = 1024;

/// How many bytes a round has.
const LEN: usize = 65536;

/// Reads each page once.
fn read_round<D: Disk>(store: &mut Store<D>, page: &mut [u8; PAGE]) -> Result<(), StoreFault>
    requires sound { IsSound D.Disk store.old }
    requires long { 65536 ≤ store.old.len }
    ensures sound { IsSound D.Disk store.new }
    ensures len { OnOk result (store.new.len ≡ store.old.len) }
{
    for number in 0..PAGES {
        store.read(number * PAGE as u32, page)?;
    }
    Ok(())
}

/// Reads each page so many times.
fn read_often<D: Disk>(store: &mut Store<D>, times: u16) -> Result<(), StoreFault>
    requires sound { IsSound D.Disk store.old }
    requires long { 65536 ≤ store.old.len }
{
    let mut page = [0; PAGE];
    for _turn in 0..times {
        read_round(store, &mut page)?;
    }
    Ok(())
}

/// Bytes that were copied so many times, each time to the place that they had come from before.
fn copied_often(alloc: Global, times: u16) -> Result<Vec<u8>, NoMemory>
    ensures { IfOk result (λ bytes. length bytes.items ≡ LEN) }
{
    let mut from = zero_bytes(alloc, LEN)?;
    let mut to = zero_bytes(alloc, LEN)?;
    for _turn in 0..times {
        to.copy_from_slice(&from);
        mem::swap(&mut from, &mut to);
    }
    Ok(from)
}

/// Reads so many rounds of pages of a store on a disk in memory. The first round brings them, and the others find them kept.
pub fn reads(alloc: Global, rounds: u16) -> Result<(), StoreFault> {
    let disk = MemDisk::new(alloc, &[])?;
    let mut store = filled_store(alloc, disk, LEN)?;
    read_often(&mut store, rounds)
}

/// Copies as many bytes as so many rounds of pages have.
pub fn copies(alloc: Global, rounds: u16) -> Result<(), NoMemory> {
    copied_often(alloc, rounds)?;
    Ok(())
}
