//! The rules by which calls are refused (ptserver's names, PR..; the numbers are own).

/// An entry has the name.
pub const NAME_EXISTS: u32 = 267_264;

/// Another entry has the id.
pub const ID_EXISTS: u32 = 267_265;

/// No id is left.
pub const NO_IDS: u32 = 267_266;

/// No entry has the id.
pub const NO_ENTRY: u32 = 267_268;

/// The entry may not be changed so.
pub const NOT_PERMITTED: u32 = 267_269;

/// A group is asked for, and this is none.
pub const NOT_GROUP: u32 = 267_270;

/// A user is asked for, and this is none.
pub const NOT_USER: u32 = 267_271;

/// No entry may have the name.
pub const BAD_NAME: u32 = 267_272;

/// A value is one that no entry has.
pub const BAD_ARGUMENT: u32 = 267_273;
