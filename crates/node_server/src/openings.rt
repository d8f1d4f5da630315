//! A server from its opening to its end: the node, the station, and the workers in threads of one scope.
ghost use Rattle.std.specs.Prelude.{◌≡◌, ◌<◌, ◌≤◌, ◌⊎◌, ℕ, [], length, true, false, Option, IfSome, IsNone, MatchOption};
ghost use Rattle.ubik_types.specs.Moment.{IsMoment};
ghost use Rattle.disk_base.specs.Crash.{IsSettled};
ghost use Rattle.disk_base.specs.Files.{Files};
ghost use Rattle.ubik_store.specs.Opening.{RefusesFiles};
ghost use Rattle.server_rounds.specs.Clock.{IsOfClock};
ghost use Rattle.node_server.specs.Causes.{was_full};
ghost use Rattle.node_server.specs.Ends.{Explains, IsQuiet, IsNotForWords, ShowsFiles, kind_of_end, kind_of_fault};
ghost use Rattle.node_server.specs.Moments.{AreTimed, moments_of};
ghost use Rattle.node_server.specs.Replays.{IsOpenedAs, IsReplayed, RunReplays};
ghost use Rattle.server_station.specs.Fit.{IsOwnJournal};
ghost use Rattle.server_station.specs.Replaying.{IsJustOpened};

use crate::benches::{Running, StationBench, Whole, lend};
use crate::ends::ServerRun;
use db_image::DraftService;
use disk_base::{Disk, Refused};
use io_base::{Clock, Gate, Net, Spawner};
use server_crew::{CrewEnd, Outside, run_crew};
use server_station::{Keeper, Station};
use server_texts::{ServerKind, ServerWords};
use std::alloc::Global;
use std::marker::Brand;
use std::sync::Wait;
use std::sync::ledger::Blank;
use std::thread::Threads;
use ubik_node::{Node, StoreFault};

/// How a server ended, with its disk and, where it was opened, its run.
pub(crate) struct Served<D, J> {
    pub(crate) kind: ServerKind,
    pub(crate) disk: D,
    pub(crate) run: Option<ServerRun<J>>,
}

/// Opens a server of one of the databases over its disk, and runs it to its end.
#[tactic(auto, using(crate::proofs::Explaining::is_up, server_station::proofs::Replaying::just_opened))]
pub(crate) fn open_and_serve<
    D: Disk + Drop + Send,
    V: DraftService + Send,
    J: Keeper + Send,
    N: Net,
    C: Clock,
    P: Spawner,
    G: Gate,
    R: Threads + Wait + Sync,
>(
    rt: &R,
    alloc: Global,
    words: ServerWords,
    disk: D,
    journal: J,
    outside: &Outside<N, C, P, G>,
) -> Served<D, J>
    requires settled { IsSettled (D.files disk) (D.may_leave disk) }
    requires empty { J.items journal ≡ [] }
    requires me { words.me < length words.cell }
    ensures words { IsNotForWords result.kind }
    ensures explained { Explains D.Disk J.items J.limits (J.limits journal)
        (N.may_close outside.now.net.now) (P.may_refuse outside.now.spawner.now) disk result.disk result.kind result.run }
    ensures timed { IfSome result.run (λ run. AreTimed (C.gave outside.now.clock.now) (moments_of run.opened (J.items run.journal))) }
    ensures replays { RunReplays D.Disk J.items V.standing (record { hosts = words.cell; me = words.me }) disk result.disk result.run }
{
    let now = outside.clock.now();
    let ServerWords { cell, me, .. } = words;
    match Node::<D, V>::open(alloc, cell, me, disk, now) {
        Ok(node) => serve_as::<D, V, Brand, J, N, C, P, G, R>(
            rt,
            alloc,
            Blank::new(7),
            node,
            now,
            journal,
            outside,
        ),
        Err(Refused { disk, why }) => Served {
            kind: kind_of_fault(why),
            disk,
            run: None,
        },
    }
}

/// How a server ends that its store refuses.
fn kind_of_fault(why: StoreFault) -> ServerKind
    ensures kind { result ≡ kind_of_fault why }
    ensures words { IsNotForWords result }
{
    match why {
        StoreFault::BadLabel { len, head } => ServerKind::BadFiles { len, head },
        StoreFault::DiskFault => ServerKind::DiskFault,
        StoreFault::TooLarge { .. } | StoreFault::NotNewer { .. } | StoreFault::NoMemory => {
            ServerKind::NoMemory
        }
    }
}

/// How a server ends whose crew ended so.
#[tactic(auto, using(crate::proofs::Showing::shows_nothing))]
fn kind_of_end(end: CrewEnd) -> ServerKind
    ensures kind { result ≡ kind_of_end end }
    ensures files { (files : Option Files) → IfSome files (λ fs. ShowsFiles fs result) }
    ensures words { IsNotForWords result }
    ensures closed { result ≡ ServerKind.Closed → end ≡ CrewEnd.Closed }
    ensures refused { result ≡ ServerKind.NoThread → end ≡ CrewEnd.NoThread }
    ensures journal_full { (entries bytes : ℕ) → result ≡ ServerKind.JournalFull entries bytes → end ≡ CrewEnd.JournalFull entries bytes }
    ensures disk_fault { result ≡ ServerKind.DiskFault → end ≡ CrewEnd.Halted }
{
    match end {
        CrewEnd::Closed => ServerKind::Closed,
        CrewEnd::NoThread => ServerKind::NoThread,
        CrewEnd::JournalFull { entries, bytes } => ServerKind::JournalFull { entries, bytes },
        CrewEnd::Halted => ServerKind::DiskFault,
        CrewEnd::NoMemory => ServerKind::NoMemory,
    }
}

/// Runs an opened server to its end.
#[tactic(auto, using(crate::proofs::Showing::shows_unit))]
fn serve_as<
    D: Disk + Drop + Send,
    V: DraftService + Send,
    L: Running + Send + Sync,
    J: Keeper + Send,
    N: Net,
    C: Clock,
    P: Spawner,
    G: Gate,
    R: Threads + Wait + Sync,
>(
    rt: &R,
    alloc: Global,
    blank: Blank,
    node: Node<D, V>,
    opened: u32,
    journal: J,
    outside: &Outside<N, C, P, G>,
) -> Served<D, J>
    requires name { blank.name ≡ L.name }
    requires parts { (blank.parts ≡ L.parts) × (L.all ≡ L.parts) × (L.all ≡ 7) }
    requires moment { IsMoment node.last }
    requires opened { (opened ≡ L.opened) × (node.last ≡ opened) × IsOfClock L.gave opened }
    requires clock { (moment : ℕ) → C.gave outside.now.clock.now moment → IsOfClock L.gave moment }
    requires empty { J.items journal ≡ [] }
    requires limits { J.limits journal ≡ L.limits }
    requires up { node.store.failed ≡ false }
    requires failed { L.failed_before ≤ D.faults node.store.disk }
    requires just_opened { IsJustOpened node }
    requires opened_as { IsOpenedAs D.Disk node L.server L.member L.tells }
    ensures words { IsNotForWords result.kind }
    ensures closed { result.kind ≡ ServerKind.Closed → N.may_close outside.now.net.now }
    ensures refused { result.kind ≡ ServerKind.NoThread → P.may_refuse outside.now.spawner.now }
    ensures journal_full { (entries bytes : ℕ) → result.kind ≡ ServerKind.JournalFull entries bytes →
        IfSome result.run (λ run. was_full L.limits (J.items run.journal) entries bytes ≡ true) }
    ensures limits { IfSome result.run (λ run. J.limits run.journal ≡ L.limits) }
    ensures disk_fault { result.kind ≡ ServerKind.DiskFault → L.failed_before < D.faults result.disk }
    ensures files { (files : Option Files) → IfSome files (λ fs. ShowsFiles fs result.kind) }
    ensures short { IsNone result.run → result.kind ≡ ServerKind.NoMemory }
    ensures moment { IfSome result.run (λ run. run.opened ≡ opened) }
    ensures own { IfSome result.run (λ run. IsOwnJournal L.member (J.items run.journal)) }
    ensures replays { IfSome result.run (λ run. L.tells ≡ true → ∥ IsReplayed D.Disk V.standing L.member L.server L.failed_before (J.items run.journal) result.disk ∥₁) }
    ensures timed { IfSome result.run (λ run. AreTimed L.gave (moments_of run.opened (J.items run.journal))) }
    ensures disk { MatchOption result.run (result.disk ≡ node.store.disk)
        (λ _. (L.failed_before ≤ D.faults result.disk) × ((L.failed_before < D.faults result.disk) ⊎ IsQuiet D.Disk result.disk)) }
{
    let station = match Station::<D, V, L, J>::make(alloc, node, journal, blank) {
        Ok(station) => station,
        Err(Refused { disk: node, .. }) => {
            return Served {
                kind: ServerKind::NoMemory,
                disk: node.close(),
                run: None,
            };
        }
    };
    let mut station = station;
    let seats = lend(&mut station);
    let bench = StationBench {
        station,
        whole: Whole::new(),
    };
    let (bench, end) = run_crew(rt, alloc, bench, seats, outside);
    let StationBench { station, whole: _ } = bench;
    let (disk, journal) = station.close();
    Served {
        kind: kind_of_end(end),
        disk,
        run: Some(ServerRun { opened, journal }),
    }
}
