//! The lines of a text of commands.
use cell_script::LimitedReader;

/// The most bytes of the line of a command, without the LF that ends it.
pub const MAX_COMMAND: usize = 65_536;

/// Reads the lines of commands.
pub type CommandReader = LimitedReader<MAX_COMMAND>;
