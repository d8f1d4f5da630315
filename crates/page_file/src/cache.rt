//! The pages of an image that are kept in memory.
ghost use Rattle.std.specs.Prelude.{◌≡◌, ◌+◌, ◌-◌, [], ◌∷◌, ◌≤◌, ◌<◌, ◌||◌, true, false, Some, None, IfSome, OnOk, OnErr, nat_eq, nat_lt, nat_le, is_some, option_copied, slice_get, length, take, drop};
ghost use Rattle.std.specs.List.{filter};
ghost use Rattle.std.specs.Map.{lookup};
ghost use Rattle.lru.specs.LruCache.{lru_cache, promoted};
ghost use Rattle.page_file.specs.Kept.{no_pages, to_front, with_page, TakesIn, apart_from};

use crate::reads::PAGE_LEN;
use lru::LruCache;
use std::alloc::Global;
use std::marker::Model;
use std::num::NonZeroUsize;
use ubik_types::NoMemory;

/// How many pages are kept, at most.
pub const KEPT_PAGES: usize = 64;

/// The bytes of a page; of the last one of an image, with zero bytes behind its end.
pub(crate) type PageBytes = [u8; PAGE_LEN];

/// The pages that are kept, by their number. Their place is made with the first of them: an opening takes no memory.
#[derive(Drop)]
pub(crate) struct Cache {
    alloc: Global,
    pages: Option<LruCache<u64, PageBytes>>,
    left_out: u64,
}

impl Model for Cache {
    ghost use Rattle.page_file.specs.Kept.{Cached};

    ghost Value = { Cached };

    ghost use Rattle.page_file.specs.View.{cached_of, HasLimit};

    ghost view = { cached_of };

    ghost invariant = { HasLimit };
}

impl Cache {
    /// No page.
    pub(crate) fn new(alloc: Global) -> Cache
        ensures { result ≡ no_pages }
    {
        Cache {
            alloc,
            pages: None,
            left_out: 0,
        }
    }

    /// Whether a page is kept.
    pub(crate) fn holds(&self, page: u64) -> bool
        ensures { result ≡ is_some (lookup (nat_eq page) self.now.pages) }
    {
        match &self.pages {
            Some(pages) => pages.contains(&page),
            None => false,
        }
    }

    /// How often a page that was read found no memory to be kept.
    pub(crate) fn left_out(&self) -> u64
        ensures { result ≡ self.now.left_out }
    {
        self.left_out
    }

    /// Copies bytes of a page that is kept, and brings it to the front; of one that is not it tells so.
    pub(crate) fn copy(&mut self, page: u64, from: usize, out: &mut [u8]) -> bool
        requires within { from + length out.old ≤ PAGE_LEN }
        ensures found { result ≡ is_some (lookup (nat_eq page) self.old.pages) }
        ensures bytes { IfSome (lookup (nat_eq page) self.old.pages) (λ bytes. out.new ≡ take (length out.old) (drop from bytes)) }
        ensures front { result ≡ true → self.new ≡ to_front page self.old }
        ensures same { result ≡ false → self.new ≡ self.old }
    {
        match &mut self.pages {
            Some(pages) => copy_page(pages, page, from, out),
            None => false,
        }
    }

    /// Keeps a page that is not kept yet, in front of all others, or leaves it out for want of memory.
    pub(crate) fn keep(&mut self, page: u64, bytes: PageBytes)
        requires { lookup (nat_eq page) self.old.pages ≡ None }
        ensures { TakesIn page bytes self.old self.new }
    {
        self.make();
        if self.put(page, bytes).is_err() {
            self.left_out = self.left_out.saturating_add(1);
        }
    }

    /// Lays a page that is not kept yet in front of all others, where there is a place for it and memory.
    fn put(&mut self, page: u64, bytes: PageBytes) -> Result<(), NoMemory>
        requires { lookup (nat_eq page) self.old.pages ≡ None }
        ensures put { OnOk result (self.new ≡ with_page page bytes self.old) }
        ensures same { OnErr result (self.new ≡ self.old) }
    {
        match &mut self.pages {
            Some(pages) => put_page(pages, page, bytes),
            None => Err(NoMemory),
        }
    }

    /// Makes the place of the pages where there is none yet, and memory for it.
    fn make(&mut self)
        ensures { self.new ≡ self.old }
    {
        if self.pages.is_none() {
            if let Some(limit) = NonZeroUsize::new(KEPT_PAGES) {
                if let Ok(pages) = LruCache::new(self.alloc, limit) {
                    self.pages = Some(pages);
                }
            }
        }
    }

    /// Drops all pages.
    pub(crate) fn clear(&mut self)
        ensures { self.new ≡ record self.old { pages = [] } }
    {
        self.pages = None;
    }

    /// Drops the pages that have a byte from one position of the image on before another.
    pub(crate) fn forget(&mut self, from: u64, to: u64)
        ensures { self.new ≡ apart_from from to self.old }
    {
        if from < to {
            self.forget_pages(from / PAGE_LEN as u64, (to - 1) / PAGE_LEN as u64 + 1);
        }
    }

    /// Drops the pages from one on before another.
    fn forget_pages(&mut self, first: u64, end: u64)
        requires { first ≤ end }
        ensures { self.new ≡ record self.old { pages = filter (λ page. nat_lt page.0 first || nat_le end page.0) self.old.pages } }
    {
        for page in first..end {
            self.forget_page(page);
        }
    }

    /// Drops a page.
    fn forget_page(&mut self, page: u64)
        ensures { self.new ≡ record self.old { pages = filter (λ other. nat_lt other.0 page || nat_le (page + 1) other.0) self.old.pages } }
    {
        if let Some(pages) = &mut self.pages {
            pop_page(pages, page);
        }
    }
}

/// Copies bytes of a page, and brings it to the front. The one that was used last is there, and is found without a hash: a scan asks for one
/// page several times in a row.
fn copy_page(pages: &mut LruCache<u64, PageBytes>, page: u64, from: usize, out: &mut [u8]) -> bool
    requires within { from + length out.old ≤ PAGE_LEN }
    ensures found { result ≡ is_some (lookup (nat_eq page) pages.old.entries) }
    ensures bytes { IfSome (lookup (nat_eq page) pages.old.entries) (λ bytes. out.new ≡ take (length out.old) (drop from bytes)) }
    ensures front { result ≡ true → pages.new ≡ lru_cache (promoted (nat_eq page) pages.old.entries) pages.old.cap }
    ensures same { result ≡ false → pages.new ≡ pages.old }
{
    if let Some(bytes) = if_last(pages, page) {
        out.copy_from_slice(&bytes[from..from + out.len()]);
        return true;
    }
    match pages.get(&page) {
        Some(bytes) => {
            out.copy_from_slice(&bytes[from..from + out.len()]);
            true
        }
        None => false,
    }
}

/// The bytes of a page, if it is the one that was used last.
fn if_last(pages: &LruCache<u64, PageBytes>, page: u64) -> Option<&PageBytes>
    ensures { IfSome (option_copied result) (λ bytes. slice_get pages.now.entries 0 ≡ Some (page, bytes)) }
{
    match pages.peek_mru() {
        Some((last, bytes)) if *last == page => Some(bytes),
        _ => None,
    }
}

/// Puts a new page in front of all others.
fn put_page(
    pages: &mut LruCache<u64, PageBytes>,
    page: u64,
    bytes: PageBytes,
) -> Result<(), NoMemory>
    requires new { lookup (nat_eq page) pages.old.entries ≡ None }
    requires limit { pages.old.cap ≡ KEPT_PAGES }
    ensures put { OnOk result (pages.new ≡ lru_cache ((page, bytes) ∷ take (KEPT_PAGES - 1) pages.old.entries) pages.old.cap) }
    ensures same { OnErr result (pages.new ≡ pages.old) }
{
    match pages.put(page, bytes) {
        Ok(_) => Ok(()),
        Err(_) => Err(NoMemory),
    }
}

/// Takes a page out.
fn pop_page(pages: &mut LruCache<u64, PageBytes>, page: u64)
    ensures { pages.new ≡ lru_cache (filter (λ other. nat_lt other.0 page || nat_le (page + 1) other.0) pages.old.entries) pages.old.cap }
{
    if pages.len() == 0 {
        return;
    }
    pages.pop(&page);
}
