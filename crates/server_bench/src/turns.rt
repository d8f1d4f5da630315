//! The calls of the protection database that a server is asked again and again.
ghost use Rattle.std.specs.Prelude.{◌≡◌, ◌+◌, ◌%◌, IfOk};
ghost use Rattle.pt_calls.specs.Calls.{HasSpelling, spelling};
ghost use Rattle.server_bench.specs.Turns.{user_name, call_of_turn};

use call_grammar::Items;
use pt_calls::{PtCall, spell_call};
use std::alloc::Global;
use ubik_types::{Bytes, NoMemory, bytes_of};

/// A name that no entry of the image has, so that its whole chain is looked at.
const NOBODY: &[u8] = b"nobody";

/// What is asked again and again.
#[derive(Clone, Copy)]
pub enum Asked {
    /// Each time another user is made.
    NewEntry,
    /// A name is translated that is no entry's.
    NameToId,
}

impl Asked {
    /// What a word asks.
    pub fn read(word: &str) -> Option<Asked> {
        match word {
            "newentry" => Some(Asked::NewEntry),
            "nametoid" => Some(Asked::NameToId),
            _ => None,
        }
    }

    /// The word that asks it.
    pub fn word(self) -> &'static str {
        match self {
            Asked::NewEntry => "newentry",
            Asked::NameToId => "nametoid",
        }
    }
}

/// A letter for a number.
fn letter(number: u16) -> u8
    ensures { result ≡ 97 + number % 26 }
{
    b'a' + (number % 26) as u8
}

/// The name of the user of a turn.
fn user_name(alloc: Global, turn: u16) -> Result<Bytes, NoMemory>
    ensures { IfOk result (λ name. name ≡ user_name turn) }
{
    let name = [b'b', letter(turn / 676), letter(turn / 26), letter(turn)];
    Ok(bytes_of(alloc, &name)?)
}

/// The call of a turn.
fn call_of_turn(alloc: Global, asked: Asked, turn: u16) -> Result<PtCall, NoMemory>
    ensures asked { IfOk result (λ call. call ≡ call_of_turn asked turn) }
    ensures short { IfOk result HasSpelling }
{
    match asked {
        Asked::NewEntry => Ok(PtCall::NewEntry {
            name: user_name(alloc, turn)?,
            kind: 0,
            owner: 0,
        }),
        Asked::NameToId => {
            let nobody = bytes_of(alloc, NOBODY)?;
            Ok(PtCall::NameToId {
                names: Items::new(vec![in alloc; nobody]?),
            })
        }
    }
}

/// The bytes of the call of a turn.
pub fn call_of(alloc: Global, asked: Asked, turn: u16) -> Result<Bytes, NoMemory>
    ensures { IfOk result (λ bytes. bytes ≡ spelling (call_of_turn asked turn)) }
{
    spell_call(alloc, &call_of_turn(alloc, asked, turn)?)
}
