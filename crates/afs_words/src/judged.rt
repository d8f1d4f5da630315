//! Switches that are judged: none of them is missing, and each of their values is read as its form wants it.
ghost use Rattle.std.specs.Prelude.{◌≡◌, ◌≢◌, length, map, take, count_by, not, IfOk, IfErr, None, Some, option_map};
ghost use Rattle.std.specs.List.{find};
ghost use Rattle.std.specs.Option.{option_copied};
ghost use Rattle.afs_words.specs.Meaning.{Means, bad_in, bad_word, first_bad, first_missing, judged, left, unless_bad};
ghost use Rattle.afs_words.specs.Slots.{bad_value, is_chosen, is_missing};
ghost use Rattle.afs_words.specs.Taken.{AreRead, fits, read_by, read_in};
ghost use Rattle.afs_words.specs.declared.faults.WordsFault.TheVariants as fault;

use crate::faults::WordsFault;
use crate::switches::Switches;
use crate::tables::Takes;
use crate::values::{Slot, Word};
use afs_commands::Value;
use std::alloc::Global;
use std::marker::Model;
use ubik_types::NoMemory;

/// What the values of a switch were read as, in their order. Contracts see the list.
#[derive(Drop)]
pub struct ReadValues {
    list: Vec<Value>,
}

impl Model for ReadValues {
    ghost use Rattle.std.specs.Prelude.{List};
    ghost use Rattle.afs_commands.specs.declared.forms.Value.{Value as Read};

    ghost Value = { List Read };

    ghost view = { λ r. r.list.items };
}

impl ReadValues {
    pub fn as_slice(&self) -> &[Value]
        ensures { result.now ≡ self.now }
    {
        self.list.as_slice()
    }
}

/// The switches of an operation, of which none is missing and no value is bad, and what their values were read as.
/// Contracts see the switches.
#[derive(Drop)]
pub struct Judged {
    switches: Switches,
    read: Vec<ReadValues>,
}

impl Model for Judged {
    ghost use Rattle.std.specs.Prelude.{List};
    ghost use Rattle.afs_words.specs.Taken.{AreRead};
    ghost use Rattle.afs_words.specs.declared.values.Slot.{Slot};

    ghost Value = { List Slot };

    ghost view = { λ j. j.switches };

    ghost invariant = { λ j. AreRead j.switches j.read.items };
}

impl Judged {
    /// The switches, or the first that is missing, or else the first bad value, in the table's order.
    pub fn of(alloc: Global, switches: Switches) -> Result<Judged, WordsFault>
        ensures { Means (judged switches) result }
    {
        let slots = switches.as_slice();
        let chosen = chosen_count(slots);
        if let Some(slot) = first_missing(slots, chosen) {
            let switch = slot.parameter.switch;
            return Err(WordsFault::MissingSwitch { switch });
        }
        let named = match slots {
            [] => 0,
            [first, ..] => first.values.as_slice().len(),
        };
        let read = read_all(alloc, slots, named, chosen)?;
        Ok(Judged { switches, read })
    }

    pub fn as_slice(&self) -> &[Slot]
        ensures { result.now ≡ self.now }
    {
        self.switches.as_slice()
    }

    /// What the values of each switch were read as.
    pub fn read(&self) -> &[ReadValues]
        ensures { AreRead self.now result.now }
    {
        self.read.as_slice()
    }

    /// Keeps the first so many switches.
    pub fn truncate(&mut self, count: usize)
        ensures { self.new ≡ take count self.old }
    {
        self.switches.truncate(count);
        self.read.truncate(count);
    }
}

/// How many switches were given of those of which one has to be.
fn chosen_count(slots: &[Slot]) -> usize
    ensures { result ≡ count_by is_chosen slots.now }
{
    slots.iter().filter(|slot| slot.is_chosen()).count()
}

/// The first switch that is missing.
fn first_missing(slots: &[Slot], chosen: usize) -> Option<&Slot>
    ensures { option_copied result ≡ find (λ slot. is_missing chosen slot) slots.now }
{
    slots.iter().find(|slot| slot.is_missing(chosen))
}

/// What the values of switches are read as, or the first that is bad, where the first switch has `named` values, and
/// `chosen` were given of those of which one has to be.
fn read_all(
    alloc: Global,
    slots: &[Slot],
    named: usize,
    chosen: usize,
) -> Result<Vec<ReadValues>, WordsFault>
    ensures judged { Means (unless_bad slots.now (first_bad named chosen slots.now)) (left result slots.now) }
    ensures read { IfOk result (λ read. AreRead slots.now read.items) }
{
    let mut read = Vec::new(alloc);
    for slot in slots {
        let values = slot.read(alloc, named, chosen)?;
        read.push(values).map_err(NoMemory::from)?;
    }
    Ok(read)
}

impl Slot {
    /// What the values are read as, or the first that is bad.
    fn read(&self, alloc: Global, named: usize, chosen: usize) -> Result<ReadValues, WordsFault>
        ensures judged { Means (unless_bad self.now (bad_in named chosen self.now)) (left result self.now) }
        ensures read { IfOk result (λ read. map Some read ≡ read_in self.now) }
    {
        let values = self.values.as_slice();
        let count = self.may_stand(named, chosen).min(values.len());
        let read = self.read_first(alloc, &values[..count])?;
        match values.get(count) {
            None => Ok(read),
            Some(word) => Err(self.refused(alloc, word)),
        }
    }

    /// What these values of the switch are read as, or the first that is out of form.
    fn read_first(&self, alloc: Global, words: &[Word]) -> Result<ReadValues, WordsFault>
        ensures unfit { Means (unless_bad self.now (option_map (bad_word self.now) (find (λ word. not (fits self.now.parameter.takes word)) words.now))) (left result self.now) }
        ensures read { IfOk result (λ read. map Some read ≡ map (read_by self.now.parameter.takes) words.now) }
    {
        let mut list = Vec::new(alloc);
        for word in words {
            match self.parameter.takes.read(alloc, word.as_bytes())? {
                Some(value) => list.push(value).map_err(NoMemory::from)?,
                None => return Err(self.refused(alloc, word)),
            }
        }
        Ok(ReadValues { list })
    }

    /// How a bad value of the switch is refused.
    fn refused(&self, alloc: Global, word: &Word) -> WordsFault
        ensures { result ≢ fault.NoMemory → result ≡ bad_word self.now word.now }
    {
        match Word::of(alloc, word.as_str()) {
            Ok(word) => WordsFault::BadValue {
                word,
                switch: self.parameter.switch,
            },
            Err(NoMemory) => WordsFault::NoMemory,
        }
    }
}

impl Takes {
    /// What the switch reads a value as; none where it may not take it. The empty value that stands for a flag is
    /// always read.
    fn read(self, alloc: Global, word: &[u8]) -> Result<Option<Value>, NoMemory>
        ensures { IfOk result (λ value. value ≡ read_by self word.now) }
    {
        match self {
            Takes::Flag | Takes::LoneFlag => Ok(Some(Value::Word)),
            Takes::One(form) | Takes::Many(form) | Takes::EachOfFirst(form) => {
                form.read(alloc, word)
            }
        }
    }
}
