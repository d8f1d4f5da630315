//! The shapes of a call's fields.
ghost use Rattle.std.specs.Prelude.{◌≡◌};
ghost use Rattle.pt_calls.specs.Calls.{shapes_of};

use crate::kinds::CallKind;

/// What a field of a call is.
#[derive(Clone, Copy, Debug, PartialEq, Eq)]
pub enum Shape {
    /// A number of 32 bits.
    Number,
    /// One with a sign: an id, an owner or a quota.
    Id,
    /// A truth value.
    Truth,
    /// A name.
    Name,
    /// A list of names.
    Names,
    /// A list of ids.
    Ids,
}

impl CallKind {
    /// The fields of a call of this kind.
    pub fn shapes(self) -> &'static [Shape]
        ensures { result.now ≡ shapes_of self }
    {
        match self {
            CallKind::NewEntry => &[Shape::Name, Shape::Number, Shape::Id],
            CallKind::INewEntry => &[Shape::Name, Shape::Id, Shape::Id],
            CallKind::NameToId => &[Shape::Names],
            CallKind::IdToName => &[Shape::Ids],
            CallKind::ListMax => &[],
            CallKind::SetMax => &[Shape::Id, Shape::Truth],
            CallKind::ListEntries => &[Shape::Number, Shape::Id],
            CallKind::ChangeEntry => &[Shape::Id, Shape::Name, Shape::Id, Shape::Id],
            CallKind::SetFields => &[Shape::Id, Shape::Number, Shape::Number, Shape::Id],
            CallKind::AddToGroup | CallKind::RemoveFromGroup | CallKind::IsMemberOf => &[
                Shape::Id,
                Shape::Id,
            ],
            CallKind::Delete
            | CallKind::GetCps
            | CallKind::ListEntry
            | CallKind::ListElements
            | CallKind::ListOwned => &[Shape::Id],
        }
    }
}
