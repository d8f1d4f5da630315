//! What `pts` writes (the manual pages of pts).
ghost use Rattle.std.specs.Prelude.{◌≡◌, ◌++◌, IfOk};
ghost use Rattle.std.specs.List.{flat_map};
ghost use Rattle.pts_tool.specs.Texts.{made_text, named_line, name_line, names_text, members_line, owned_line, name_at, title_line, fields_of, fields_line, entry_text, row, head_row, entry_row, rows, maxima_text};

use crate::answers::Maxima;
use crate::flags::flags_text;
use pt_calls::{Names, PtEntry};
use std::alloc::Global;
use tool_base::{at_left, at_right, joined, number_text, signed_text};
use ubik_types::{Bytes, NoMemory};

/// The line of an entry that was made.
pub(crate) fn made_text(
    alloc: Global,
    is_group: bool,
    name: &[u8],
    id: i32,
) -> Result<Bytes, NoMemory>
    ensures { IfOk result (λ text. text ≡ made_text is_group name.now id) }
{
    let what: &[u8] = if is_group { b"group " } else { b"User " };
    let id = signed_text(alloc, id)?;
    joined(alloc, &[what, name, b" has id ", id.as_bytes(), b"\n"])
}

/// A line that names an entry with its id.
fn named_line<'a>(
    alloc: Global,
    before: &'a [u8],
    name: &'a [u8],
    id: i32,
    behind: &'a [u8],
) -> Result<Bytes, NoMemory>
    ensures { IfOk result (λ text. text ≡ named_line before.now name.now id behind.now) }
{
    let id = signed_text(alloc, id)?;
    joined(
        alloc,
        &[before, name, b" (id: ", id.as_bytes(), behind, b"\n"],
    )
}

/// The line before the members of a group, or before the groups of a user.
pub(crate) fn members_line(alloc: Global, name: &[u8], id: i32) -> Result<Bytes, NoMemory>
    ensures { IfOk result (λ text. text ≡ members_line name.now id) }
{
    if id < 0 {
        named_line(alloc, b"Members of ", name, id, b") are:")
    } else {
        named_line(alloc, b"Groups ", name, id, b") is a member of:")
    }
}

/// The line before the groups that an entry owns.
pub(crate) fn owned_line(alloc: Global, name: &[u8], id: i32) -> Result<Bytes, NoMemory>
    ensures { IfOk result (λ text. text ≡ owned_line name.now id) }
{
    named_line(alloc, b"Groups owned by ", name, id, b") are:")
}

/// Names behind a text, each in a line of its own.
pub(crate) fn names_behind(alloc: Global, head: Bytes, names: &Names) -> Result<Bytes, NoMemory>
    ensures { IfOk result (λ text. text ≡ head ++ names_text names.now) }
{
    let mut text = head.into_vec();
    for name in names.as_slice() {
        let line = name_line(alloc, name.as_slice())?;
        text.extend_from_slice(line.as_slice())?;
    }
    Ok(Bytes::new(text))
}

/// A name in a line.
fn name_line(alloc: Global, name: &[u8]) -> Result<Bytes, NoMemory>
    ensures { IfOk result (λ text. text ≡ name_line name.now) }
{
    joined(alloc, &[b"  ", name, b"\n"])
}

/// An entry with the names of its owner and of who made it, in this order.
pub(crate) fn entry_text(alloc: Global, entry: &PtEntry, names: &Names) -> Result<Bytes, NoMemory>
    ensures { IfOk result (λ text. text ≡ entry_text entry.now names.now) }
{
    let title = title_line(alloc, entry, name_at(names, 0), name_at(names, 1))?;
    let fields = fields_line(alloc, entry)?;
    joined(alloc, &[title.as_slice(), fields.as_slice()])
}

/// The name at a place, empty where there is none.
fn name_at(names: &Names, place: usize) -> &[u8]
    ensures { result.now ≡ name_at names.now place }
{
    match names.as_slice().get(place) {
        Some(name) => name.as_slice(),
        None => b"",
    }
}

fn title_line<'a>(
    alloc: Global,
    entry: &'a PtEntry,
    owner: &'a [u8],
    creator: &'a [u8],
) -> Result<Bytes, NoMemory>
    ensures { IfOk result (λ text. text ≡ title_line entry.now owner.now creator.now) }
{
    let id = signed_text(alloc, entry.id)?;
    joined(
        alloc,
        &[
            b"Name: ",
            entry.name.as_slice(),
            b", id: ",
            id.as_bytes(),
            b", owner: ",
            owner,
            b", creator: ",
            creator,
            b",",
            b"\n",
        ],
    )
}

fn fields_line(alloc: Global, entry: &PtEntry) -> Result<Bytes, NoMemory>
    ensures { IfOk result (λ text. text ≡ fields_line entry.now) }
{
    let count = number_text(alloc, entry.count)?;
    let quota = signed_text(alloc, entry.quota)?;
    let flags = flags_text(entry.flags);
    fields_of(alloc, count.as_bytes(), &flags, quota.as_bytes())
}

fn fields_of<'a>(
    alloc: Global,
    count: &'a [u8],
    flags: &'a [u8],
    quota: &'a [u8],
) -> Result<Bytes, NoMemory>
    ensures { IfOk result (λ text. text ≡ fields_of count.now flags.now quota.now) }
{
    joined(
        alloc,
        &[
            b"  membership: ",
            count,
            b", flags: ",
            flags,
            b", group quota: ",
            quota,
            b".",
            b"\n",
        ],
    )
}

/// A row of the table of entries.
fn row(
    alloc: Global,
    name: &[u8],
    id: &[u8],
    owner: &[u8],
    creator: &[u8],
) -> Result<Bytes, NoMemory>
    ensures { IfOk result (λ text. text ≡ row name.now id.now owner.now creator.now) }
{
    let name = at_left(alloc, 25, name)?;
    let id = at_right(alloc, 6, id)?;
    let owner = at_right(alloc, 6, owner)?;
    let creator = at_right(alloc, 7, creator)?;
    joined(
        alloc,
        &[
            name.as_slice(),
            b" ",
            id.as_slice(),
            b" ",
            owner.as_slice(),
            b" ",
            creator.as_slice(),
            b"\n",
        ],
    )
}

/// The head of the table of entries.
pub(crate) fn head_row(alloc: Global) -> Result<Bytes, NoMemory>
    ensures { IfOk result (λ text. text ≡ head_row) }
{
    row(alloc, b"Name", b"ID", b"Owner", b"Creator")
}

/// The row of an entry.
fn entry_row(alloc: Global, entry: &PtEntry) -> Result<Bytes, NoMemory>
    ensures { IfOk result (λ text. text ≡ entry_row entry.now) }
{
    let id = signed_text(alloc, entry.id)?;
    let owner = signed_text(alloc, entry.owner)?;
    let creator = signed_text(alloc, entry.creator)?;
    row(
        alloc,
        entry.name.as_slice(),
        id.as_bytes(),
        owner.as_bytes(),
        creator.as_bytes(),
    )
}

/// The rows of entries behind a text.
pub(crate) fn rows_behind(
    alloc: Global,
    head: Bytes,
    entries: &[PtEntry],
) -> Result<Bytes, NoMemory>
    ensures { IfOk result (λ text. text ≡ head ++ rows entries.now) }
{
    let mut text = head.into_vec();
    for entry in entries {
        let line = entry_row(alloc, entry)?;
        text.extend_from_slice(line.as_slice())?;
    }
    Ok(Bytes::new(text))
}

/// The greatest ids that were given.
pub(crate) fn maxima_text(alloc: Global, maxima: Maxima) -> Result<Bytes, NoMemory>
    ensures { IfOk result (λ text. text ≡ maxima_text maxima) }
{
    let user = signed_text(alloc, maxima.user)?;
    let group = signed_text(alloc, maxima.group)?;
    joined(
        alloc,
        &[
            b"Max user id is ",
            user.as_bytes(),
            b" and max group id is ",
            group.as_bytes(),
            b".",
            b"\n",
        ],
    )
}
