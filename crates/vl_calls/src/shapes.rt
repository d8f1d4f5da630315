//! The shapes of a call's fields.
ghost use Rattle.std.specs.Prelude.{◌≡◌};
ghost use Rattle.vl_calls.specs.Calls.{shapes_of};

use crate::kinds::CallKind;

/// What a field of a call is.
#[derive(Clone, Copy, Debug, PartialEq, Eq)]
pub enum Shape {
    /// A number of 32 bits.
    Number,
    /// One with a sign: a volume type or a partition.
    Signed,
    /// A truth value.
    Truth,
    /// A name.
    Name,
    /// An entry without its lock.
    Entry,
}

impl CallKind {
    /// The fields of a call of this kind.
    pub fn shapes(self) -> &'static [Shape]
        ensures { result.now ≡ shapes_of self }
    {
        match self {
            CallKind::GetNewVolumeId => &[Shape::Number],
            CallKind::CreateEntry => &[Shape::Entry],
            CallKind::DeleteEntry | CallKind::GetEntryById => &[Shape::Number, Shape::Signed],
            CallKind::GetEntryByName => &[Shape::Name],
            CallKind::ReplaceEntry => &[Shape::Number, Shape::Signed, Shape::Entry, Shape::Number],
            CallKind::SetLock | CallKind::ReleaseLock => &[
                Shape::Number,
                Shape::Signed,
                Shape::Number,
            ],
            CallKind::ListAttributes => &[
                Shape::Number,
                Shape::Number,
                Shape::Signed,
                Shape::Truth,
            ],
            CallKind::GetAddrs | CallKind::Probe => &[],
            CallKind::ChangeAddr => &[Shape::Number, Shape::Number],
        }
    }
}
