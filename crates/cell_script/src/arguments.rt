//! The words behind the first word of a line: servers, numbers, kinds and fills.
ghost use Rattle.std.specs.Prelude.{◌≡◌};
ghost use Rattle.script_words.specs.Numbers.{number_within};
ghost use Rattle.cell_script.specs.Meaning.{kind_of, server_of, fill_of, cell_in, or_number, numbered_stop};
ghost use Rattle.cell_script.specs.declared.lines.TheConstants.{MAX_STOP};

use crate::lines::{Kind, Line, MAX_CLOCK, MAX_STOP, Why};
use disk_base::Fill;
use script_words::{number, number_within};
use ubik_types::MAXSERVERS;

/// The number of a server, from 1 on.
pub fn server_of(word: &[u8]) -> Option<u64>
    ensures { result ≡ server_of word.now }
{
    match number(word)? {
        0 => None,
        server => Some(server),
    }
}

/// `SERVERS CLOCK KIND`: 1 to [`MAXSERVERS`] servers, a clock from 1 to [`MAX_CLOCK`], and `pt` or `vl`.
pub fn cell_line(servers: &[u8], clock: &[u8], kind: &[u8]) -> Result<Line, Why>
    ensures { result ≡ cell_in servers.now clock.now (kind_of kind.now) }
{
    let kind = kind_of(kind).ok_or(Why::Syntax)?;
    let servers = number_within(servers, 1, MAXSERVERS as u32).ok_or(Why::Number)?;
    let clock = number_within(clock, 1, MAX_CLOCK).ok_or(Why::Number)?;
    Ok(Line::Cell {
        servers,
        clock,
        kind,
    })
}

/// The kind of a database.
fn kind_of(word: &[u8]) -> Option<Kind>
    ensures { result ≡ kind_of word.now }
{
    match word {
        b"pt" => Some(Kind::Protection),
        b"vl" => Some(Kind::Location),
        _ => None,
    }
}

/// `SERVER CALLS FILL`, with at most [`MAX_STOP`] calls.
pub fn stop_line(server: &[u8], calls: &[u8], fill: &[u8]) -> Result<Line, Why>
    ensures { result ≡ or_number (numbered_stop (server_of server.now) (number_within 0 MAX_STOP calls.now) (fill_of fill.now)) }
{
    let server = server_of(server).ok_or(Why::Number)?;
    let calls = number_within(calls, 0, MAX_STOP).ok_or(Why::Number)?;
    let fill = fill_of(fill).ok_or(Why::Number)?;
    Ok(Line::Stop {
        server,
        calls,
        fill,
    })
}

/// What a stop leaves of what was written and not synced: `old`, `new`, or a byte's number.
fn fill_of(word: &[u8]) -> Option<Fill>
    ensures { result ≡ fill_of word.now }
{
    match word {
        b"old" => Some(Fill::Old),
        b"new" => Some(Fill::New),
        _ => {
            let byte = number_within(word, 0, 255)?;
            Some(Fill::Byte(byte as u8))
        }
    }
}
