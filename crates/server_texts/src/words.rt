//! The words of the program: the database, the folder of its files, the own address, and the addresses of the cell.
ghost use Rattle.std.specs.Prelude.{◌≡◌, ◌<◌, length, map, string_bytes, IfOk, IsPermutation, List, Some};
ghost use Rattle.ubik_types.specs.declared.hosts.Host.{Host};
ghost use Rattle.server_texts.specs.Words.{Means, MeansCell, behind_folder, behind_hosts, behind_kind, behind_own, cell_hosts, database_of, fault_of, hosts_of, meaning_of};

use host_words::{address, listed_hosts};
use std::alloc::Global;
use ubik_types::{Cell, CellFault, Host, NoMemory};

/// Which database a server serves.
#[derive(Clone, Copy, Debug, PartialEq, Eq)]
pub enum Database {
    /// The volume location database, of a `vlserver`.
    Location,
    /// The protection database, of a `ptserver`.
    Protection,
}

impl Database {
    /// The port at which its servers listen.
    pub const fn port(self) -> u16 {
        match self {
            Database::Location => 7003,
            Database::Protection => 7002,
        }
    }

    /// The name of its servers.
    pub const fn name(self) -> &'static str {
        match self {
            Database::Location => "vlserver",
            Database::Protection => "ptserver",
        }
    }

    fn named(word: &[u8]) -> Option<Database>
        ensures { result ≡ database_of word.now }
    {
        if word == b"vlserver".as_slice() {
            Some(Database::Location)
        } else if word == b"ptserver".as_slice() {
            Some(Database::Protection)
        } else {
            None
        }
    }
}

/// What the words of a server say; the folder is its program's business.
#[derive(Drop)]
pub struct ServerWords {
    pub database: Database,
    pub cell: Cell,
    /// The place of this server in the cell.
    pub me: usize,
}

/// Why words are refused.
#[derive(Clone, Copy, Debug, PartialEq, Eq)]
pub enum WordsFault {
    /// The word at this place, counted from 1, does not fit, is missing, or is one too many.
    Word { place: u32 },
    /// Memory ran out.
    NoMemory,
}

impl From<NoMemory> for WordsFault {
    ghost use Rattle.std.specs.Prelude.{◌≡◌};
    ghost use Rattle.server_texts.specs.declared.words.WordsFault.TheVariants as fault;

    ghost from_gives = { λ _ e. e ≡ fault.NoMemory };

    fn from(_: NoMemory) -> Self {
        WordsFault::NoMemory
    }
}

/// Reads the words KIND FOLDER ME HOSTS. The first that does not fit is refused; one that is missing has the place after the last.
pub fn read_words(alloc: Global, words: &[String]) -> Result<ServerWords, WordsFault>
    ensures meaning { Means (meaning_of (map string_bytes words.now)) result }
    ensures me { IfOk result (λ read. read.me < length read.cell) }
{
    let [kind, rest @ ..] = words else {
        return Err(WordsFault::Word { place: 1 });
    };
    match Database::named(kind.as_bytes()) {
        Some(database) => read_behind_kind(alloc, database, rest),
        None => Err(WordsFault::Word { place: 1 }),
    }
}

/// Reads FOLDER ME HOSTS.
fn read_behind_kind(
    alloc: Global,
    database: Database,
    words: &[String],
) -> Result<ServerWords, WordsFault>
    ensures meaning { Means (behind_kind (map string_bytes words.now) (Some database)) result }
    ensures me { IfOk result (λ read. read.me < length read.cell) }
{
    let [_folder, rest @ ..] = words else {
        return Err(WordsFault::Word { place: 2 });
    };
    read_behind_folder(alloc, database, rest)
}

/// Reads ME HOSTS.
fn read_behind_folder(
    alloc: Global,
    database: Database,
    words: &[String],
) -> Result<ServerWords, WordsFault>
    ensures meaning { Means (behind_folder database (map string_bytes words.now)) result }
    ensures me { IfOk result (λ read. read.me < length read.cell) }
{
    let [own, rest @ ..] = words else {
        return Err(WordsFault::Word { place: 3 });
    };
    match address(own.as_bytes()) {
        Some(number) => read_behind_own(alloc, database, number, rest),
        None => Err(WordsFault::Word { place: 3 }),
    }
}

/// Reads HOSTS, behind which no word may stand.
fn read_behind_own(
    alloc: Global,
    database: Database,
    own: u32,
    words: &[String],
) -> Result<ServerWords, WordsFault>
    ensures meaning { Means (behind_own database (map string_bytes words.now) (Some own)) result }
    ensures me { IfOk result (λ read. read.me < length read.cell) }
{
    let [hosts, rest @ ..] = words else {
        return Err(WordsFault::Word { place: 4 });
    };
    read_hosts(alloc, database, Host(own), hosts.as_bytes(), rest)
}

/// Reads the text of HOSTS, behind which no word may stand.
fn read_hosts(
    alloc: Global,
    database: Database,
    own: Host,
    text: &[u8],
    words: &[String],
) -> Result<ServerWords, WordsFault>
    ensures meaning { Means (behind_hosts database own (map string_bytes words.now) (hosts_of text.now)) result }
    ensures me { IfOk result (λ read. read.me < length read.cell) }
{
    match read_cell(alloc, text) {
        Ok(cell) => read_end(database, own, cell, words),
        Err(fault) => Err(fault),
    }
}

/// The words of a server of this cell, behind which no word may stand.
fn read_end(
    database: Database,
    own: Host,
    cell: Cell,
    words: &[String],
) -> Result<ServerWords, WordsFault>
    ensures meaning { (hosts : List Host) → IsPermutation hosts cell → Means (behind_hosts database own (map string_bytes words.now) (Some hosts)) result }
    ensures me { IfOk result (λ read. read.me < length read.cell) }
{
    let Some(me) = cell.index(own) else {
        return Err(WordsFault::Word { place: 3 });
    };
    match words {
        [] => Ok(ServerWords { database, cell, me }),
        [_, ..] => Err(WordsFault::Word { place: 5 }),
    }
}

/// The cell of addresses that commas join.
fn read_cell(alloc: Global, text: &[u8]) -> Result<Cell, WordsFault>
    ensures { MeansCell (hosts_of text.now) result }
{
    match listed_hosts(alloc, text)? {
        Some(hosts) => cell_of(alloc, hosts.as_slice()),
        None => Err(WordsFault::Word { place: 4 }),
    }
}

/// The cell of these hosts.
fn cell_of(alloc: Global, hosts: &[Host]) -> Result<Cell, WordsFault>
    ensures { MeansCell (cell_hosts hosts.now) result }
{
    match Cell::new(alloc, hosts) {
        Ok(cell) => Ok(cell),
        Err(why) => Err(fault_of(why)),
    }
}

/// How words are refused whose hosts make no cell.
fn fault_of(why: CellFault) -> WordsFault
    ensures { result ≡ fault_of why }
{
    match why {
        CellFault::NoMemory => WordsFault::NoMemory,
        CellFault::Empty | CellFault::TooMany { .. } | CellFault::Repeated { .. } => {
            WordsFault::Word { place: 4 }
        }
    }
}
