//! How sites and entries are read: from bytes, or from words.
ghost use Rattle.vl_calls.specs.Entries.{entry_at, given_at, site_at};

use crate::calls::GivenEntry;
use crate::limits::MAX_SITES;
use call_grammar::{Form, NoValue, NotRead, SkipForm, Source, read_list, skip_list};
use std::alloc::Global;
use ubik_types::bytes_of;
use vldb_entries::{VlEntry, VlSite};

/// How a site is read.
pub(crate) struct SiteForm;

#[tactic(auto, unfolding(crate::specs::Entries::site_at))]
impl<'a, S: Source<'a>> Form<'a, S, VlSite> for SiteForm {
    ghost value_at = { site_at S.item_at };

    fn read(_alloc: Global, from: &mut S) -> Result<VlSite, NotRead> {
        Ok(VlSite {
            host: from.number()?,
            partition: from.number()?,
            flags: from.number()?,
        })
    }
}

#[tactic(auto, unfolding(crate::specs::Entries::site_at))]
impl<'a, S: Source<'a>> SkipForm<'a, S, VlSite> for SiteForm {
    ghost value_at = { site_at S.item_at };

    fn skip(from: &mut S) -> Result<(), NoValue> {
        from.number()?;
        from.number()?;
        from.number()?;
        Ok(())
    }
}

/// How an entry is read, as a call gives it.
pub(crate) struct GivenForm;

#[tactic(auto, unfolding(crate::specs::Entries::given_at))]
impl<'a, S: Source<'a>> Form<'a, S, GivenEntry> for GivenForm {
    ghost value_at = { given_at S.item_at };

    fn read(alloc: Global, from: &mut S) -> Result<GivenEntry, NotRead> {
        let name = from.text()?;
        Ok(GivenEntry {
            name: bytes_of(alloc, name)?,
            flags: from.number()?,
            rw: from.number()?,
            ro: from.number()?,
            backup: from.number()?,
            clone_id: from.number()?,
            sites: read_list::<S, VlSite, SiteForm>(alloc, from, MAX_SITES)?,
        })
    }
}

#[tactic(auto, unfolding(crate::specs::Entries::given_at))]
impl<'a, S: Source<'a>> SkipForm<'a, S, GivenEntry> for GivenForm {
    ghost value_at = { given_at S.item_at };

    fn skip(from: &mut S) -> Result<(), NoValue> {
        from.text()?;
        from.number()?;
        from.number()?;
        from.number()?;
        from.number()?;
        from.number()?;
        skip_list::<S, VlSite, SiteForm>(from, MAX_SITES)
    }
}

/// How an entry is read, as an answer tells it.
pub(crate) struct EntryForm;

#[tactic(auto, unfolding(crate::specs::Entries::entry_at))]
impl<'a, S: Source<'a>> Form<'a, S, VlEntry> for EntryForm {
    ghost value_at = { entry_at S.item_at };

    fn read(alloc: Global, from: &mut S) -> Result<VlEntry, NotRead> {
        let name = from.text()?;
        Ok(VlEntry {
            name: bytes_of(alloc, name)?,
            flags: from.number()?,
            rw: from.number()?,
            ro: from.number()?,
            backup: from.number()?,
            clone_id: from.number()?,
            sites: read_list::<S, VlSite, SiteForm>(alloc, from, MAX_SITES)?,
            lock_op: from.number()?,
            lock_moment: from.number()?,
        })
    }
}
