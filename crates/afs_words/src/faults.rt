//! Why the words of a command are refused.
use crate::tables::Switch;
use crate::values::Word;
use std::error::Error;
use std::fmt;
use ubik_types::NoMemory;

/// Why the words of a command are refused: the operation is judged first, then the words from left to right, then
/// the switches that are missing, then the values, both in the order of the table. Its text is what the command
/// writes behind its own name.
#[derive(Debug, Drop)]
pub enum WordsFault {
    /// The first word is no operation and begins none; an empty word where there is none.
    UnknownOperation { word: Word },
    /// The first word begins several operations.
    AmbiguousOperation { word: Word },
    /// The word is no switch of the operation and begins none.
    UnknownSwitch { word: Word },
    /// The word begins several switches of the operation.
    AmbiguousSwitch { word: Word },
    /// No value stands behind the switch.
    MissingValue { switch: Switch },
    /// The switch has to be given, or one of the same need, of which it is the first.
    MissingSwitch { switch: Switch },
    /// The switch has its values already.
    Repeated { switch: Switch },
    /// No switch takes the value.
    Extra { word: Word },
    /// The value is none that the switch may have, or stands beside too few or too many others.
    BadValue { word: Word, switch: Switch },
    /// Memory ran out.
    NoMemory,
}

impl From<NoMemory> for WordsFault {
    ghost use Rattle.std.specs.Prelude.{◌≡◌};
    ghost use Rattle.afs_words.specs.declared.faults.WordsFault.TheVariants as fault;

    ghost from_gives = { λ _ e. e ≡ fault.NoMemory };

    fn from(_: NoMemory) -> Self {
        WordsFault::NoMemory
    }
}

impl fmt::Display for Switch {
    ghost use Rattle.std.specs.Prelude.{Some};
    ghost use Rattle.afs_words.specs.Tables.{switch_name};

    ghost output = { λ s. Some (switch_name s) };

    fn fmt<W: fmt::Write>(&self, f: &mut fmt::Formatter<W>) -> fmt::Result {
        let name = self.name();
        write!(f, "{name}")
    }
}

impl fmt::Display for WordsFault {
    ghost use Rattle.std.specs.Prelude.{Some};
    ghost use Rattle.afs_words.specs.Texts.{fault_text};

    ghost output = { λ fault. Some (fault_text fault) };

    fn fmt<W: fmt::Write>(&self, f: &mut fmt::Formatter<W>) -> fmt::Result {
        match self {
            WordsFault::UnknownOperation { word } => write!(f, "unknown operation '{word}'"),
            WordsFault::AmbiguousOperation { word } => write!(f, "ambiguous operation '{word}'"),
            WordsFault::UnknownSwitch { word } => write!(f, "unknown switch '{word}'"),
            WordsFault::AmbiguousSwitch { word } => write!(f, "ambiguous switch '{word}'"),
            WordsFault::MissingValue { switch } => write!(f, "missing value for -{switch}"),
            WordsFault::MissingSwitch { switch } => write!(f, "missing -{switch}"),
            WordsFault::Repeated { switch } => write!(f, "-{switch} given twice"),
            WordsFault::Extra { word } => write!(f, "extra value '{word}'"),
            WordsFault::BadValue { word, switch } => write!(f, "bad value '{word}' for -{switch}"),
            WordsFault::NoMemory => write!(f, "out of memory"),
        }
    }
}

impl Error for WordsFault {}
