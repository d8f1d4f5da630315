//! The words of a command, and the values of its switches.
ghost use Rattle.std.specs.Prelude.{◌≡◌, ◌∷◌, ◌==◌, [], map, length, string_bytes, IfOk};
ghost use Rattle.afs_words.specs.Slots.{is_given, is_chosen, is_missing, may_stand};
ghost use Rattle.afs_words.specs.Tables.{switch_name};

use crate::matching::Named;
use crate::tables::{Need, Parameter, Takes};
use std::alloc::Global;
use std::fmt;
use std::marker::Model;
use ubik_types::NoMemory;

/// A word of a command. Contracts see its bytes.
#[derive(Debug, Drop)]
pub struct Word {
    text: String,
}

impl Model for Word {
    ghost use Rattle.std.specs.Prelude.{ℕ, List, string_bytes};

    ghost Value = { List ℕ };

    ghost view = { λ w. string_bytes w.text };
}

impl Word {
    /// A copy of a text.
    pub fn of(alloc: Global, text: &str) -> Result<Word, NoMemory>
        ensures { IfOk result (λ word. word ≡ text.now) }
    {
        let text = String::from_str(alloc, text)?;
        Ok(Word { text })
    }

    pub fn as_str(&self) -> &str
        ensures { result.now ≡ self.now }
    {
        self.text.as_str()
    }

    pub fn as_bytes(&self) -> &[u8]
        ensures { result.now ≡ self.now }
    {
        self.text.as_bytes()
    }
}

impl fmt::Display for Word {
    ghost use Rattle.std.specs.Prelude.{Some};

    ghost output = { λ w. Some w };

    fn fmt<W: fmt::Write>(&self, f: &mut fmt::Formatter<W>) -> fmt::Result {
        let text = self.as_str();
        write!(f, "{text}")
    }
}

/// The values of a switch: none where it was not given, one empty word for a flag that was.
#[derive(Debug, Drop)]
pub struct Values {
    list: Vec<Word>,
}

impl Model for Values {
    ghost use Rattle.std.specs.Prelude.{ℕ, List};

    ghost Value = { List (List ℕ) };

    ghost view = { λ v. v.list.items };
}

impl Values {
    /// Copies of words, as the values of a switch.
    pub fn of(alloc: Global, words: &[String]) -> Result<Values, NoMemory>
        ensures { IfOk result (λ values. values ≡ map string_bytes words.now) }
    {
        let mut list = Vec::new(alloc);
        for word in words {
            list.push(Word::of(alloc, word.as_str())?)?;
        }
        Ok(Values { list })
    }

    /// The one empty value of a flag.
    pub fn flag(alloc: Global) -> Result<Values, NoMemory>
        ensures { IfOk result (λ values. values ≡ [] ∷ []) }
    {
        let mut list = Vec::new(alloc);
        list.push(Word::of(alloc, "")?)?;
        Ok(Values { list })
    }

    pub fn as_slice(&self) -> &[Word]
        ensures { result.now ≡ self.now }
    {
        self.list.as_slice()
    }
}

/// A switch of an operation with its values.
#[derive(Debug, Drop)]
pub struct Slot {
    pub parameter: Parameter,
    pub values: Values,
}

impl Named for Slot {
    ghost use Rattle.afs_words.specs.Tables.{switch_name};

    ghost named = { λ s. switch_name s.parameter.switch };

    fn name(&self) -> &'static str {
        self.parameter.switch.name()
    }
}

impl Slot {
    /// Whether the switch was given.
    pub fn is_given(&self) -> bool
        ensures { result ≡ is_given self.now }
    {
        !self.values.as_slice().is_empty()
    }

    /// Whether the switch was given and is one of those of which one has to be.
    pub fn is_chosen(&self) -> bool
        ensures { result ≡ is_chosen self.now }
    {
        matches!(self.parameter.need, Need::OneOf) && self.is_given()
    }

    /// Whether the switch is missing, where so many of those were given of which one has to be.
    pub fn is_missing(&self, chosen: usize) -> bool
        ensures { result ≡ is_missing chosen self.now }
    {
        let must = match self.parameter.need {
            Need::Required => true,
            Need::Optional => false,
            Need::OneOf => chosen == 0,
        };
        must && !self.is_given()
    }

    /// How many of the values may stand beside the other switches: the first of these has `named` values, and
    /// `chosen` of those were given of which one has to be.
    pub(crate) fn may_stand(&self, named: usize, chosen: usize) -> usize
        ensures { result ≡ may_stand self.now.parameter.takes named chosen (length self.now.values) }
    {
        match self.parameter.takes {
            Takes::LoneFlag if chosen > 1 => 0,
            Takes::EachOfFirst(_) => named,
            _ => self.values.as_slice().len(),
        }
    }
}
