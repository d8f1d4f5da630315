//! What the program prints of itself.

/// What `--help` prints.
pub const HELP: &str = "\
afs_dbserver runs one server of a cell, over the files of a folder.

  afs_dbserver KIND FOLDER ME HOSTS

KIND is vlserver, which listens at port 7003, or ptserver, at port 7002. FOLDER
has the server's files, which are made where it is empty; no other server may
use it. HOSTS are the 1 to 20 dotted addresses of the cell, joined by commas,
the same for each of its servers; ME is this server's. It takes packets from
these addresses alone, and calls from anyone who reaches the port.
One word alone: --help prints this, --version the version.

Lines on standard error say when it becomes the sync site, loses its lease,
hears another sync site, has another epoch, or gives no answer to itself. Where
the environment has CAVYGOLD_AUDIT=FILE, FILE gets a line for each call that may
change the database and was answered: moment, address, call, answer.

It runs until something ends it, as a line on standard error says. To end it,
kill it: what it answered stays. Exit statuses:
  0  its socket has closed
  5  memory ran out
  6  a worker got no thread
  7  no more calls can be numbered: start it again
  8  the disk failed
  9  the files are no database
 10  a word does not fit
 11  the folder or the port cannot be opened
";

/// What `--version` prints.
pub const VERSION: &str = "afs_dbserver 0.1.0\n";

pub const NO_MEMORY: &str = "afs_dbserver: no memory\n";

pub const CANNOT_OPEN: &str = "afs_dbserver: cannot open\n";

pub const BAD_FILES: &str = "afs_dbserver: bad files\n";

/// The text for which a word that stands alone asks.
fn text_of(word: &str) -> Option<&'static str> {
    match word {
        "--help" => Some(HELP),
        "--version" => Some(VERSION),
        _ => None,
    }
}

/// The text for which the words ask.
pub fn asked_text(words: &[String]) -> Option<&'static str> {
    match words {
        [word] => text_of(word.as_str()),
        _ => None,
    }
}
