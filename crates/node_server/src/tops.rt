//! The top calls: a server from its words to its status.
ghost use Rattle.std.specs.Prelude.{◌≡◌, ◌<◌, ℕ, [], length, map, string_bytes, IfSome};
ghost use Rattle.disk_base.specs.Crash.{IsSettled};
ghost use Rattle.node_server.specs.Causes.{IsFullIn};
ghost use Rattle.node_server.specs.Ends.{Explains, FollowsWords, IsComplete, IsNotForWords, kind_of_words};
ghost use Rattle.node_server.specs.Moments.{AreTimed, moments_of};
ghost use Rattle.node_server.specs.Replays.{ReplaysNamed, RunReplays, standing_of};
ghost use Rattle.server_texts.specs.Ends.{IsSaid, end_line, status_of};
ghost use Rattle.server_texts.specs.Words.{meaning_of};

use crate::ends::ServerEnd;
use crate::openings::{Served, open_and_serve};
use disk_base::{Disk, Sink};
use io_base::{Clock, Gate, Net, Spawner};
use pt_database::PtService;
use server_crew::Outside;
use server_station::{Journal, Keeper, Limits};
use server_texts::{Database, ServerKind, ServerWords, WordsFault, read_words, say_end};
use std::alloc::Global;
use std::sync::Wait;
use std::thread::Threads;
use vl_database::VlService;

/// How much the journal in memory holds: entries, and bytes.
const JOURNAL_LIMITS: Limits = Limits {
    entries: 1_000_000,
    bytes: 268_435_456,
};

/// Runs a server with these words, over a disk on which nothing is pending, until its net closes or something ends it. Its journal is
/// held in memory. One line on `err` says how it ended, but where the net has closed.
///
/// Statuses: 0 the net has closed by itself, 5 memory ran out, 6 a worker got no thread, 7 the journal is full, 8 the disk failed, 9 the
/// files are no database, 10 a word does not fit.
pub fn server_top<
    D: Disk + Drop + Send,
    N: Net,
    C: Clock,
    P: Spawner,
    G: Gate,
    K: Sink,
    R: Threads + Wait + Sync,
>(
    rt: &R,
    alloc: Global,
    words: &[String],
    disk: D,
    net: &N,
    clock: &C,
    spawner: &P,
    gate: &G,
    err: &mut K,
) -> ServerEnd<D, Journal>
    requires { IsSettled (D.files disk) (D.may_leave disk) }
    ensures status { result.status ≡ status_of result.kind }
    ensures words { FollowsWords (meaning_of (map string_bytes words.now)) result.kind }
    ensures explained { Explains D.Disk (λ journal. journal.held.items) (λ journal. journal.limits) JOURNAL_LIMITS
        (N.may_close net.now) (P.may_refuse spawner.now) disk result.disk result.kind result.run }
    ensures complete { IsComplete D.Disk disk result.disk (meaning_of (map string_bytes words.now)) result.kind }
    ensures timed { IfSome result.run (λ run. AreTimed (C.gave clock.now) (moments_of run.opened run.journal.held.items)) }
    ensures replays { ReplaysNamed D.Disk (λ journal. journal.held.items) (meaning_of (map string_bytes words.now)) disk result.disk result.run }
    ensures journal_full { (entries bytes : ℕ) → result.kind ≡ ServerKind.JournalFull entries bytes →
        IfSome result.run (λ run. IsFullIn JOURNAL_LIMITS run.journal.held.items entries bytes) }
    ensures said { IsSaid (K.written err.old) (K.written err.new) (K.faults err.old) (K.faults err.new) (end_line result.kind) }
{
    let journal = Journal::new(alloc, JOURNAL_LIMITS);
    server_over(
        rt, alloc, words, disk, journal, net, clock, spawner, gate, err,
    )
}

/// Runs a server as `server_top` does, over an empty journal of any form.
pub fn server_over<
    D: Disk + Drop + Send,
    J: Keeper + Send,
    N: Net,
    C: Clock,
    P: Spawner,
    G: Gate,
    K: Sink,
    R: Threads + Wait + Sync,
>(
    rt: &R,
    alloc: Global,
    words: &[String],
    disk: D,
    journal: J,
    net: &N,
    clock: &C,
    spawner: &P,
    gate: &G,
    err: &mut K,
) -> ServerEnd<D, J>
    requires settled { IsSettled (D.files disk) (D.may_leave disk) }
    requires empty { J.items journal ≡ [] }
    ensures status { result.status ≡ status_of result.kind }
    ensures words { FollowsWords (meaning_of (map string_bytes words.now)) result.kind }
    ensures explained { Explains D.Disk J.items J.limits (J.limits journal)
        (N.may_close net.now) (P.may_refuse spawner.now) disk result.disk result.kind result.run }
    ensures complete { IsComplete D.Disk disk result.disk (meaning_of (map string_bytes words.now)) result.kind }
    ensures timed { IfSome result.run (λ run. AreTimed (C.gave clock.now) (moments_of run.opened (J.items run.journal))) }
    ensures replays { ReplaysNamed D.Disk J.items (meaning_of (map string_bytes words.now)) disk result.disk result.run }
    ensures said { IsSaid (K.written err.old) (K.written err.new) (K.faults err.old) (K.faults err.new) (end_line result.kind) }
{
    let outside = Outside {
        net,
        clock,
        spawner,
        gate,
    };
    let Served { kind, disk, run } = read_and_serve(rt, alloc, words, disk, journal, &outside);
    say_end(&kind, err);
    ServerEnd {
        status: kind.status(),
        kind,
        disk,
        run,
    }
}

/// Reads the words, and runs the server that they name.
fn read_and_serve<
    D: Disk + Drop + Send,
    J: Keeper + Send,
    N: Net,
    C: Clock,
    P: Spawner,
    G: Gate,
    R: Threads + Wait + Sync,
>(
    rt: &R,
    alloc: Global,
    words: &[String],
    disk: D,
    journal: J,
    outside: &Outside<N, C, P, G>,
) -> Served<D, J>
    requires settled { IsSettled (D.files disk) (D.may_leave disk) }
    requires empty { J.items journal ≡ [] }
    ensures words { FollowsWords (meaning_of (map string_bytes words.now)) result.kind }
    ensures explained { Explains D.Disk J.items J.limits (J.limits journal)
        (N.may_close outside.now.net.now) (P.may_refuse outside.now.spawner.now) disk result.disk result.kind result.run }
    ensures timed { IfSome result.run (λ run. AreTimed (C.gave outside.now.clock.now) (moments_of run.opened (J.items run.journal))) }
    ensures replays { ReplaysNamed D.Disk J.items (meaning_of (map string_bytes words.now)) disk result.disk result.run }
{
    match read_words(alloc, words) {
        Ok(words) => serve(rt, alloc, words, disk, journal, outside),
        Err(fault) => Served {
            kind: kind_of_words(fault),
            disk,
            run: None,
        },
    }
}

/// How a server ends whose words are refused.
fn kind_of_words(fault: WordsFault) -> ServerKind
    ensures { result ≡ kind_of_words fault }
{
    match fault {
        WordsFault::Word { place } => ServerKind::Words { place },
        WordsFault::NoMemory => ServerKind::NoMemory,
    }
}

/// Runs a server of the database that the words name.
fn serve<
    D: Disk + Drop + Send,
    J: Keeper + Send,
    N: Net,
    C: Clock,
    P: Spawner,
    G: Gate,
    R: Threads + Wait + Sync,
>(
    rt: &R,
    alloc: Global,
    words: ServerWords,
    disk: D,
    journal: J,
    outside: &Outside<N, C, P, G>,
) -> Served<D, J>
    requires settled { IsSettled (D.files disk) (D.may_leave disk) }
    requires empty { J.items journal ≡ [] }
    requires me { words.me < length words.cell }
    ensures words { IsNotForWords result.kind }
    ensures explained { Explains D.Disk J.items J.limits (J.limits journal)
        (N.may_close outside.now.net.now) (P.may_refuse outside.now.spawner.now) disk result.disk result.kind result.run }
    ensures timed { IfSome result.run (λ run. AreTimed (C.gave outside.now.clock.now) (moments_of run.opened (J.items run.journal))) }
    ensures replays { RunReplays D.Disk J.items (standing_of words.database) (record { hosts = words.cell; me = words.me }) disk result.disk result.run }
{
    match words.database {
        Database::Location => {
            open_and_serve::<D, VlService, J, N, C, P, G, R>(
                rt, alloc, words, disk, journal, outside,
            )
        }
        Database::Protection => {
            open_and_serve::<D, PtService, J, N, C, P, G, R>(
                rt, alloc, words, disk, journal, outside,
            )
        }
    }
}
