//! The hosts in the file that names those of the cell of a machine.
ghost use Rattle.std.specs.Prelude.{◌≡◌, IfOk, drop, option_map, position, string_bytes};
ghost use Rattle.std.specs.Option.{option_copied};
ghost use Rattle.cell_hosts.specs.Files.{is_blank, hosts_line, until_blank, unquoted, value_of, hosts_in};

use std::alloc::Global;
use ubik_types::NoMemory;

/// What stands in front of the hosts in their line.
const NAME: &[u8; 15] = b"CAVYGOLD_HOSTS=";

/// The first line that gives hosts.
fn hosts_line(text: &[u8]) -> Option<&[u8]>
    ensures { option_copied result ≡ hosts_line text.now }
{
    text.split(|byte| *byte == b'\n')
        .find(|line| line.starts_with(NAME))
}

/// Where the first blank stands.
fn blank_place(text: &[u8]) -> Option<usize>
    ensures { result ≡ position is_blank text.now }
{
    text.iter()
        .position(|byte| *byte == b' ' || *byte == b'\t' || *byte == b'\r')
}

/// What stands in front of the first blank.
fn until_blank(text: &[u8]) -> &[u8]
    ensures { result.now ≡ until_blank text.now }
{
    match blank_place(text) {
        Some(place) => &text[..place],
        None => text,
    }
}

/// A value without the quotes round it, where one kind stands on both sides.
fn unquoted(value: &[u8]) -> &[u8]
    ensures { result.now ≡ unquoted value.now }
{
    match value {
        [b'"', inner @ .., b'"'] => inner,
        [b'\'', inner @ .., b'\''] => inner,
        _ => value,
    }
}

/// What stands behind so many bytes.
fn behind(text: &[u8], count: usize) -> &[u8]
    ensures { result.now ≡ drop count text.now }
{
    if count <= text.len() {
        &text[count..]
    } else {
        &[]
    }
}

/// What a line gives as hosts: the word behind its front, without quotes.
fn value_of(line: &[u8]) -> &[u8]
    ensures { result.now ≡ value_of line.now }
{
    unquoted(until_blank(behind(line, NAME.len())))
}

/// The hosts that the text of such a file gives: those of the first line that begins with `CAVYGOLD_HOSTS=`, with quotes
/// or without; none where there is no such line, or nothing stands there. All other lines are passed over. Bytes that are
/// no text are replaced, so that they are no host.
pub fn hosts_in(alloc: Global, text: &[u8]) -> Result<Option<String>, NoMemory>
    ensures { IfOk result (λ hosts. option_map string_bytes hosts ≡ hosts_in text.now) }
{
    let Some(line) = hosts_line(text) else {
        return Ok(None);
    };
    let value = value_of(line);
    if value.is_empty() {
        return Ok(None);
    }
    let hosts = String::from_utf8_lossy(alloc, value)?;
    Ok(Some(hosts))
}
