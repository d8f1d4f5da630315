//! The numbers that the records of a log begin with (Ubik), and the file that they name.

/// Begins a log. The last of its bytes is the gate.
pub const LOGNEW: u32 = 100;

/// Ends a log, with its version.
pub const LOGEND: u32 = 101;

/// Lays bytes at a position.
pub const LOGDATA: u32 = 103;

/// Keeps the first bytes of a file.
pub const LOGTRUNCATE: u32 = 104;

/// The only file that a change may name.
pub const FILE: u32 = 0;
