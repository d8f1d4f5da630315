//! Values as they are written, one after the other: as bytes, or as words.
ghost use Rattle.std.specs.Prelude.{◌≡◌, ◌≤◌, ◌++◌, length, OnOk};
ghost use Rattle.std.specs.List.{flat_map, AllByRecursion};
ghost use Rattle.call_grammar.specs.Lists.{listed};
ghost use Rattle.vl_calls.specs.Entries.{entry_text, given_text, site_text, IsEntryText, IsGiven};
ghost use Rattle.vl_calls.specs.Writing.{value_text, IsShort};
ghost use Rattle.vl_calls.specs.declared.limits.TheConstants.{MAX_SITES};

use crate::calls::GivenEntry;
use Value::{Name, Number, Sites};
use call_grammar::{Sink, Telling, write_list};
use ubik_types::{Bytes, NoMemory};
use vldb_entries::{SiteList, VlEntry, VlSite};

/// A value, which is lent.
#[derive(Clone, Copy)]
pub(crate) enum Value<'a> {
    Number(&'a u32),
    Signed(&'a i32),
    Truth(&'a bool),
    Name(&'a Bytes),
    Sites(&'a SiteList),
}

/// Writes values one after the other.
pub(crate) fn put<W: Sink>(out: &mut W, values: &[Value<'_>]) -> Result<(), NoMemory>
    requires { AllByRecursion IsShort values.now }
    ensures { OnOk result (W.written out.new ≡ W.written out.old ++ flat_map (value_text W.text_of) values.now) }
{
    for value in values {
        put_value(out, *value)?;
    }
    Ok(())
}

fn put_value<W: Sink>(out: &mut W, value: Value<'_>) -> Result<(), NoMemory>
    requires { IsShort value }
    ensures { OnOk result (W.written out.new ≡ W.written out.old ++ value_text W.text_of value.entry) }
{
    match value {
        Value::Number(n) => out.number(*n),
        Value::Signed(z) => out.signed(*z),
        Value::Truth(truth) => out.truth(*truth),
        Value::Name(name) => out.text(name.as_slice()),
        Value::Sites(sites) => put_sites(out, sites.as_slice()),
    }
}

fn put_sites<W: Sink>(out: &mut W, sites: &[VlSite]) -> Result<(), NoMemory>
    requires { length sites.now ≤ MAX_SITES }
    ensures { OnOk result (W.written out.new ≡ W.written out.old ++ listed W.text_of (site_text W.text_of) sites.now) }
{
    write_list::<W, VlSite, SiteText>(out, sites)
}

/// How a site is written.
struct SiteText;

impl<W: Sink> Telling<W, VlSite> for SiteText {
    ghost text = { site_text W.text_of };

    ghost HasText = { λ _. Unit {0} };

    #[tactic(auto, unfolding(crate::specs::Entries::site_text))]
    fn write(out: &mut W, site: &VlSite) -> Result<(), NoMemory> {
        out.number(site.host)?;
        out.number(site.partition)?;
        out.number(site.flags)
    }
}

/// Writes an entry as a call gives it.
#[tactic(auto, unfolding(crate::specs::Entries::given_text, crate::specs::Entries::IsGiven))]
pub(crate) fn put_given<W: Sink>(out: &mut W, e: &GivenEntry) -> Result<(), NoMemory>
    requires { IsGiven e.now }
    ensures { OnOk result (W.written out.new ≡ W.written out.old ++ given_text W.text_of e.now) }
{
    put(
        out,
        &[
            Name(&e.name),
            Number(&e.flags),
            Number(&e.rw),
            Number(&e.ro),
            Number(&e.backup),
            Number(&e.clone_id),
            Sites(&e.sites),
        ],
    )
}

/// How an entry is written, as an answer tells it.
pub(crate) struct EntryText;

impl<W: Sink> Telling<W, VlEntry> for EntryText {
    ghost text = { entry_text W.text_of };

    ghost HasText = { IsEntryText };

    #[tactic(auto, unfolding(crate::specs::Entries::entry_text, crate::specs::Entries::IsEntryText))]
    fn write(out: &mut W, e: &VlEntry) -> Result<(), NoMemory> {
        put(
            out,
            &[
                Name(&e.name),
                Number(&e.flags),
                Number(&e.rw),
                Number(&e.ro),
                Number(&e.backup),
                Number(&e.clone_id),
                Sites(&e.sites),
                Number(&e.lock_op),
                Number(&e.lock_moment),
            ],
        )
    }
}
