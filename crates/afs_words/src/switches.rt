//! The switches of an operation, given their values by the words of a command.
ghost use Rattle.std.specs.Prelude.{◌≡◌, ◌<◌, ◌++◌, ◌∷◌, [], length, map, take, drop, string_bytes, slice_set, position, IfOk};
ghost use Rattle.afs_words.specs.Meaning.{Means, is_switch, front, share, filled, is_flag, given_values, given, read_switches, left, refused_extra};

use crate::faults::WordsFault;
use crate::matching::{Meant, find_named};
use crate::tables::{Parameter, Takes};
use crate::values::{Slot, Values, Word};
use std::alloc::Global;
use std::marker::Model;
use ubik_types::NoMemory;

/// The switches of an operation in the order of the table, each with its values. Contracts see the list.
#[derive(Debug, Drop)]
pub struct Switches {
    list: Vec<Slot>,
}

impl Model for Switches {
    ghost use Rattle.std.specs.Prelude.{List};
    ghost use Rattle.afs_words.specs.declared.values.Slot.{Slot};

    ghost Value = { List Slot };

    ghost view = { λ s. s.list.items };
}

impl Switches {
    /// The switches with the values that stand before the first switch: they go to them in the table's order.
    pub fn filled(
        alloc: Global,
        parameters: &[Parameter],
        words: &[String],
    ) -> Result<Switches, WordsFault>
        ensures { Means (filled [] parameters.now (map string_bytes words.now)) result }
    {
        let mut list = Vec::new(alloc);
        let mut rest = words;
        for parameter in parameters {
            let (own, others) = rest.split_at(parameter.takes.share(rest.len()));
            let values = Values::of(alloc, own)?;
            list.push(Slot {
                parameter: *parameter,
                values,
            })
            .map_err(NoMemory::from)?;
            rest = others;
        }
        refuse_extra(alloc, rest)?;
        Ok(Switches { list })
    }

    /// Gives each switch among the words the values behind it, from left to right.
    pub fn read(self, alloc: Global, words: &[String]) -> Result<Switches, WordsFault>
        ensures { Means (read_switches self (map string_bytes words.now)) result }
    {
        let mut switches = self;
        let mut rest = words;
        while let [word, after @ ..] = rest {
            if is_switch(word.as_bytes()) {
                switches.give(alloc, word.as_str(), front(after))?;
            }
            rest = after;
        }
        Ok(switches)
    }

    /// Gives the switch that a word names the values behind it.
    fn give(&mut self, alloc: Global, word: &str, words: &[String]) -> Result<(), WordsFault>
        ensures { Means (given self.old word.now (map string_bytes words.now)) (left result self.new) }
    {
        match find_named(self.as_slice(), behind_mark(word.as_bytes())) {
            Meant::Unknown => Err(WordsFault::UnknownSwitch {
                word: Word::of(alloc, word)?,
            }),
            Meant::Ambiguous => Err(WordsFault::AmbiguousSwitch {
                word: Word::of(alloc, word)?,
            }),
            Meant::Item(place) => {
                let slot = &self.list[place];
                let parameter = slot.parameter;
                let values = slot.given_values(alloc, words)?;
                self.list[place] = Slot { parameter, values };
                Ok(())
            }
        }
    }

    pub fn as_slice(&self) -> &[Slot]
        ensures { result.now ≡ self.now }
    {
        self.list.as_slice()
    }

    /// Keeps the first so many switches.
    pub fn truncate(&mut self, count: usize)
        ensures { self.new ≡ take count self.old }
    {
        self.list.truncate(count);
    }
}

impl Slot {
    /// The values that the switch has where it stands before these words, none of which is a switch.
    fn given_values(&self, alloc: Global, words: &[String]) -> Result<Values, WordsFault>
        ensures { Means (given_values self.now (map string_bytes words.now)) result }
    {
        let switch = self.parameter.switch;
        let takes = self.parameter.takes;
        if !takes.is_flag() && words.is_empty() {
            return Err(WordsFault::MissingValue { switch });
        }
        if self.is_given() {
            return Err(WordsFault::Repeated { switch });
        }
        let (own, others) = words.split_at(takes.share(words.len()));
        refuse_extra(alloc, others)?;
        if takes.is_flag() {
            Ok(Values::flag(alloc)?)
        } else {
            Ok(Values::of(alloc, own)?)
        }
    }
}

impl Takes {
    /// Whether the switch stands without a value.
    fn is_flag(self) -> bool
        ensures { result ≡ is_flag self }
    {
        matches!(self, Takes::Flag | Takes::LoneFlag)
    }

    /// How many of so many values the switch takes.
    fn share(self, count: usize) -> usize
        ensures { result ≡ share self count }
    {
        match self {
            Takes::Flag | Takes::LoneFlag => 0,
            Takes::One(_) => count.min(1),
            Takes::Many(_) | Takes::EachOfFirst(_) => count,
        }
    }
}

/// Refuses the first of the words that no switch takes.
fn refuse_extra(alloc: Global, words: &[String]) -> Result<(), WordsFault>
    ensures { Means (refused_extra (map string_bytes words.now)) result }
{
    match words {
        [] => Ok(()),
        [extra, ..] => Err(WordsFault::Extra {
            word: Word::of(alloc, extra.as_str())?,
        }),
    }
}

/// A switch's word without its `-`.
fn behind_mark(word: &[u8]) -> &[u8]
    ensures { result.now ≡ drop 1 word.now }
{
    match word {
        [] => word,
        [_, name @ ..] => name,
    }
}

/// Whether a word names a switch: it begins with `-` and then no digit.
fn is_switch(word: &[u8]) -> bool
    ensures { result ≡ is_switch word.now }
{
    match word {
        [b'-'] => true,
        [b'-', second, ..] => !second.is_ascii_digit(),
        _ => false,
    }
}

/// The words in front of the next switch.
pub fn front(words: &[String]) -> &[String]
    ensures { map string_bytes result.now ≡ front (map string_bytes words.now) }
{
    let count = switch_place(words).unwrap_or(words.len());
    &words[..count]
}

/// Where the next switch stands.
fn switch_place(words: &[String]) -> Option<usize>
    ensures { result ≡ position (λ word. is_switch (string_bytes word)) words.now }
{
    words.iter().position(|word| is_switch(word.as_bytes()))
}
