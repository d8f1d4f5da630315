//! A server of a cell, one step at a time.
ghost use Rattle.std.specs.Prelude.{◌≡◌, IsErrOf, ◌⊎◌, ◌≢◌, ◌↔◌, IsTrue, ◌+◌, ◌<◌, ◌≤◌, ◌^◌, ℕ, [], length, Ok, Err, IfOk, IfErr, IfSome, IsOk, IsSome, MatchResult, OnOk, None, true, false};
ghost use Rattle.ubik_types.specs.declared.hosts.Host.{Host};
ghost use Rattle.ubik_types.specs.Moment.{IsMoment};
ghost use Rattle.disk_base.specs.Crash.{IsSettled};
ghost use Rattle.disk_base.specs.Runs.{OnlyReads};
ghost use Rattle.disk_base.specs.Stops.{IsStopped};
ghost use Rattle.cell_model.specs.Node as model;
ghost use Rattle.cell_model.specs.NodeRule.{handled, place_of, received_packet, refusals};
ghost use Rattle.cell_model.specs.Step.{outputs_of, cell_size};
ghost use Rattle.ubik_calls.specs.declared.frames.Frame.TheVariants as frames;
ghost use Rattle.ubik_calls.specs.WireGrammar.{HasSpelling};
ghost use Rattle.ubik_node.specs.Built.{BodyTakesNoMemory, IsBuilt, IsBuiltBody, TakesNoMemory};
ghost use Rattle.server_state.specs.Recovering.{IsOfCell};
ghost use Rattle.std.proofs.Props.{props};
ghost use Rattle.ubik_node.specs.Lone.{IsSeamless-prop, IsWithinImage-prop};
ghost use Rattle.ubik_node.specs.Stored.{IsStoredAs};

use crate::asking::put_reply;
use cell_model::NodeEvent;
use db_image::DraftService;
use disk_base::{Disk, Fill, Refused, StopDisk};
use server_state::{Dropped, HeldImage, Outputs, State};
use std::alloc::Global;
use std::marker::PhantomData;
use ubik_calls::{DebugIs, Packet, Reply};
use ubik_recovery::Recovery;
use ubik_store::{Store, StoreFault};
use ubik_types::{Cell, Host, Phase, Version};
use ubik_votes::Votes;

/// How a step ended.
#[derive(Clone, Copy, Debug, PartialEq, Eq)]
pub enum StepEnd {
    /// The step was made.
    Done,
    /// The server's disk failed, now or before: it answers every call with a fault of the disk, until it is
    /// opened anew.
    Halted,
    /// Memory ran out in a recovery turn, or at a packet of recovery or of a write. Nothing changed and nothing was put out.
    NoMemory,
}

/// A server that is up, over the store of its disk, and the database that it serves.
pub struct Node<D: Disk, V> {
    pub(crate) alloc: Global,
    pub(crate) store: Store<D>,
    pub(crate) state: State,
    last: u32,
    service: PhantomData<V>,
    // So it is in each node, also in one that a lock hands out.
    pub ghost stored: { IsStoredAs D.Disk store state.version state.image } by { Prim.hlevel (props, IsSeamless-prop, IsWithinImage-prop) },
}

// Derived, it would be spelled out for each field wherever a caller lets a server go, and proved there.
impl<D: Disk + Drop, V> Drop for Node<D, V> {
    fn drop(self) {
        let Self {
            alloc: _,
            store: _,
            state: _,
            last: _,
            service: _,
        } = self;
    }
}

impl<D: Disk, V: DraftService> Node<D, V> {
    ghost use Rattle.ubik_node.specs.Debug.{debug_of, host_or_none};
    ghost use Rattle.ubik_types.specs.Phase.{phase_of};
    ghost use Rattle.ubik_types.specs.Lease.{lease_end};
    ghost use Rattle.ubik_store.specs.Opening.{IsOpening, OpensIn, RefusesFiles};
    ghost use Rattle.cell_model.specs.Durable.{Durable};
    ghost use Rattle.ubik_node.specs.Disk.{StandsAs};
    ghost use Rattle.server_state.specs.Lapsing.{IsDroppedOf, returned};
    ghost use Rattle.ubik_node.specs.Alike.{AlikeSo, StepsAlike, free_dbs};
    ghost use Rattle.ubik_node.specs.Choices.{dbs_of};
    ghost use Rattle.ubik_node.specs.Node.{BringsStates, Calls, Closes, EndsSo, held, HoldsStates, Needs, NeedsFiles, NeedsThen, Steps, StepsFreely, last_after, node_of, own_member, up_server};

    /// Opens a server over its disk, on which nothing is pending, at a moment in seconds: the server at a place of the cell. An
    /// empty disk is an empty database of version 0.0. A refusal is that of the store, and hands the disk back as the store left it.
    pub fn open(
        alloc: Global,
        cell: Cell,
        me: usize,
        disk: D,
        now: u32,
    ) -> Result<Node<D, V>, Refused<D, StoreFault>>
        requires me { me < length cell }
        requires moment { IsMoment now }
        requires settled { IsSettled (D.files disk) (D.may_leave disk) }
        ensures opened { IfOk result (λ node. (d : Durable) × (node_of node ≡ model.Up (model.opened_server (length cell) d now))
            × IfSome (D.files disk) (StandsAs d)) }
        ensures member { IfOk result (λ node. own_member node ≡ record { hosts = cell; me = me }) }
        ensures last { IfOk result (λ node. node.last ≡ now) }
        ensures untold { IfOk result (λ node. D.files disk ≡ None → D.files node.store.disk ≡ None) }
        ensures told { IfOk result (λ node. IsSome (D.files disk) → IsSome (D.files node.store.disk)) }
        ensures steps { IfOk result (λ node. IfSome (D.files disk) (λ fs.
            (calls : ℕ) → OpensIn fs calls → D.steps node.store.disk ≡ D.steps disk + calls)) }
        ensures refused { IfErr result (λ refused. IfSome (D.files disk) (λ fs. RefusesFiles fs refused.why)) }
        ensures unchanged { IfErr result (λ refused. refused.why ≢ StoreFault.DiskFault → OnlyReads D.Disk disk refused.disk ⊥) }
        ensures left { IfErr result (λ refused. refused.why ≢ StoreFault.DiskFault → IsSome (D.files disk) → IsSome (D.files refused.disk)) }
        ensures settled { IfErr result (λ refused. refused.why ≢ StoreFault.DiskFault → IsSettled (D.files refused.disk) (D.may_leave refused.disk)) }
        ensures opening { MatchResult result (λ node. IsOpening D.Disk disk node.store.disk ⊥)
            (λ refused. IsOpening D.Disk disk refused.disk (refused.why ≡ StoreFault.DiskFault)) }
    {
        let servers = cell.len();
        let store = Store::open(alloc, disk)?;
        let state = State {
            cell,
            me,
            version: store.version(),
            image: HeldImage::of(&store),
            votes: Votes::start(servers, me, now),
            beacon: None,
            recovery: Recovery::in_cell(alloc, servers),
            pending: None,
            writes: None,
        };
        Ok(Node {
            alloc,
            store,
            state,
            last: now,
            service: PhantomData,
        })
    }

    /// One step: what an event makes of the server at a moment in seconds, not below the last one. An id of a
    /// call is new since the opening. Over an image that stands for a state a call is made as the database has it. Over another one what comes of
    /// it is free, and nothing else: it keeps the grammar and the sizes, and only a writing call changes the image. `out` is empty before it, and
    /// has what the step put out after it. A recovery turn, and packets of recovery and of writes, can end for want of memory: a call that
    /// finds none is answered so. At each moment of the step a crash leaves the state after the first so many of its durable calls.
    pub fn step(&mut self, now: u32, event: NodeEvent, out: &mut Outputs) -> StepEnd
        requires moment { IsMoment now }
        requires order { self.old.last ≤ now }
        requires built { IsBuilt event }
        requires empty { out.old ≡ [] }
        ensures step { Needs V.standing.database (own_member self.old) (node_of self.old) event now (D.files self.old.store.disk)
            → StepsFreely D.Disk V.standing (own_member self.old) result event now (node_of self.old) (node_of self.new) out.new
            self.old.store.disk self.new.store.disk }
        ensures meant { Needs V.standing.database (own_member self.old) (node_of self.old) event now (D.files self.old.store.disk)
            → HoldsStates V.standing (node_of self.old)
            → Steps D.Disk V.standing.database (own_member self.old) result event now (node_of self.old) (node_of self.new) out.new
            self.old.store.disk self.new.store.disk }
        ensures keeps { Needs V.standing.database (own_member self.old) (node_of self.old) event now (D.files self.old.store.disk)
            → BringsStates V.standing (own_member self.old) (node_of self.old) event now
            → HoldsStates V.standing (node_of self.old) → HoldsStates V.standing (node_of self.new) }
        ensures alike { StepsAlike V.standing.database (own_member self.old) result event now (node_of self.old) (node_of self.new) out.new }
        ensures member { own_member self.new ≡ own_member self.old }
        ensures memory { TakesNoMemory event → result ≢ StepEnd.NoMemory }
        ensures halts { (result ≡ StepEnd.Halted) ↔ (self.new.store.failed ≡ true) }
        ensures told { result ≢ StepEnd.Halted → IsSome (D.files self.old.store.disk) → IsSome (D.files self.new.store.disk) }
        ensures calls { Calls D.Disk self.old self.new result }
        ensures last { self.new.last ≡ last_after result self.old.last now }
    {
        self.step_on(now, &event, out)
    }

    /// `step` at an event that the caller keeps: after a step that ended for want of memory it can be taken again.
    pub fn step_on(&mut self, now: u32, event: &NodeEvent, out: &mut Outputs) -> StepEnd
        requires moment { IsMoment now }
        requires order { self.old.last ≤ now }
        requires built { IsBuilt event.now }
        requires empty { out.old ≡ [] }
        ensures step { Needs V.standing.database (own_member self.old) (node_of self.old) event.now now (D.files self.old.store.disk)
            → StepsFreely D.Disk V.standing (own_member self.old) result event.now now (node_of self.old) (node_of self.new) out.new
            self.old.store.disk self.new.store.disk }
        ensures meant { Needs V.standing.database (own_member self.old) (node_of self.old) event.now now (D.files self.old.store.disk)
            → HoldsStates V.standing (node_of self.old)
            → Steps D.Disk V.standing.database (own_member self.old) result event.now now (node_of self.old) (node_of self.new) out.new
            self.old.store.disk self.new.store.disk }
        ensures keeps { Needs V.standing.database (own_member self.old) (node_of self.old) event.now now (D.files self.old.store.disk)
            → BringsStates V.standing (own_member self.old) (node_of self.old) event.now now
            → HoldsStates V.standing (node_of self.old) → HoldsStates V.standing (node_of self.new) }
        ensures alike { StepsAlike V.standing.database (own_member self.old) result event.now now (node_of self.old) (node_of self.new) out.new }
        ensures member { own_member self.new ≡ own_member self.old }
        ensures memory { TakesNoMemory event.now → result ≢ StepEnd.NoMemory }
        ensures halts { (result ≡ StepEnd.Halted) ↔ (self.new.store.failed ≡ true) }
        ensures told { result ≢ StepEnd.Halted → IsSome (D.files self.old.store.disk) → IsSome (D.files self.new.store.disk) }
        ensures calls { Calls D.Disk self.old self.new result }
        ensures last { self.new.last ≡ last_after result self.old.last now }
    {
        let end = if self.store.failed() {
            refuse(event, out)
        } else {
            self.step_up(now, event, out)
        };
        if end != StepEnd::NoMemory {
            self.last = now;
        }
        end
    }

    /// What the server tells of itself at a moment in seconds. A halted one tells what it kept.
    pub fn debug(&self, now: u32) -> DebugIs
        ensures told { result ≡ debug_of (own_member self.now) (model.halted_from (up_server self.now)) now }
        ensures spelled { (number : ℕ) → number < 2 ^ 32 → HasSpelling (frames.DebugIs number result) }
    {
        let (voted, voted_at) = self.state.votes.last_yes();
        let sync = self.state.votes.sync_heard(now);
        DebugIs {
            host: self.state.cell.host(self.state.me),
            now,
            version: self.version(),
            phase: self.phase(),
            until: self.lease_until(),
            sync: self.host_or_none(sync.map(|(server, _)| server)),
            voted: self.host_or_none(voted),
            voted_at,
        }
    }

    /// The version of the database. Of a halted server this and the next four are those from before the
    /// step that halted it.
    pub fn version(&self) -> Version
        ensures { result ≡ (up_server self.now).version }
    {
        self.state.version
    }

    /// The phase of the server's recovery, as the last step left it.
    pub fn phase(&self) -> Phase
        ensures { result ≡ phase_of (up_server self.now).phase }
    {
        self.state.recovery.phase()
    }

    /// The last moment of the lease that was counted last, in seconds; 0 where none was.
    pub fn lease_until(&self) -> u32
        ensures { result ≡ lease_end (cell_size (own_member self.now)) (up_server self.now).starts }
    {
        self.state.votes.lease_until()
    }

    /// The length of the image, in bytes.
    pub fn len(&self) -> u32
        ensures { result ≡ length (up_server self.now).image }
    {
        self.state.image.len()
    }

    /// Whether the server's disk has failed.
    pub fn halted(&self) -> bool
        ensures { result ≡ self.now.store.failed }
    {
        self.store.failed()
    }

    /// The moment of the opening, or of the last step that did not end for want of memory.
    pub fn last(&self) -> u32
        ensures { result ≡ self.now.last }
    {
        self.last
    }

    /// Takes the server down, and gives its disk back, which another server can be opened over.
    pub fn close(self) -> D
        ensures { result ≡ self.store.disk }
    {
        let Self {
            alloc: _,
            store,
            state: _,
            last: _,
            service: _,
        } = self;
        store.close()
    }

    /// The host of a server of the cell, 0 for none.
    fn host_or_none(&self, server: Option<usize>) -> Host
        requires { IfSome server (λ k. k < length self.now.state.cell) }
        ensures { result ≡ host_or_none (own_member self.now) server }
    {
        server.map_or(Host(0), |k| self.state.cell.host(k))
    }

    /// A step of a server that is not halted.
    fn step_up(&mut self, now: u32, event: &NodeEvent, out: &mut Outputs) -> StepEnd
        requires moment { IsMoment now }
        requires not_halted { self.old.store.failed ≡ false }
        requires built { IsBuilt event.now }
        requires empty { out.old ≡ [] }
        ensures step { Needs V.standing.database (own_member self.old) (node_of self.old) event.now now (D.files self.old.store.disk)
            → StepsFreely D.Disk V.standing (own_member self.old) result event.now now (node_of self.old) (node_of self.new) out.new
            self.old.store.disk self.new.store.disk }
        ensures meant { Needs V.standing.database (own_member self.old) (node_of self.old) event.now now (D.files self.old.store.disk)
            → HoldsStates V.standing (node_of self.old)
            → Steps D.Disk V.standing.database (own_member self.old) result event.now now (node_of self.old) (node_of self.new) out.new
            self.old.store.disk self.new.store.disk }
        ensures keeps { Needs V.standing.database (own_member self.old) (node_of self.old) event.now now (D.files self.old.store.disk)
            → BringsStates V.standing (own_member self.old) (node_of self.old) event.now now
            → HoldsStates V.standing (node_of self.old) → HoldsStates V.standing (node_of self.new) }
        ensures alike { StepsAlike V.standing.database (own_member self.old) result event.now now (node_of self.old) (node_of self.new) out.new }
        ensures member { own_member self.new ≡ own_member self.old }
        ensures memory { TakesNoMemory event.now → result ≢ StepEnd.NoMemory }
        ensures halts { (result ≡ StepEnd.Halted) ↔ (self.new.store.failed ≡ true) }
        ensures told { result ≢ StepEnd.Halted → IsSome (D.files self.old.store.disk) → IsSome (D.files self.new.store.disk) }
        ensures calls { Calls D.Disk self.old self.new result }
        ensures last { self.new.last ≡ self.old.last }
    {
        let given = self.state.lapse(now, out);
        let end = self.handle(now, event, out);
        self.end(end, given, event, out)
    }

    /// What an event makes of a server that is not halted, after the lapse.
    fn handle(&mut self, now: u32, event: &NodeEvent, out: &mut Outputs) -> Result<(), StoreFault>
        requires moment { IsMoment now }
        requires not_halted { self.old.store.failed ≡ false }
        requires built { IsBuilt event.now }
        requires few { length out.old ≤ 100 }
        ensures ends { EndsSo D.Disk V.standing (NeedsThen V.standing.database (own_member self.old) (up_server self.old) event.now now (D.files self.old.store.disk))
            (λ o. handled (dbs_of o) (own_member self.old) (up_server self.old) now event.now o.short) out.old out.new (held self.old) (held self.new) result }
        ensures alike { OnOk result (AlikeSo V.standing.database (up_server self.old)
            (λ at free. handled (free_dbs V.standing.database free) (own_member self.old) at now event.now free.short)
            (up_server self.new) out.old out.new) }
        ensures memory { TakesNoMemory event.now → IsErrOf result StoreFault.DiskFault ⊎ IsOk result }
    {
        match event {
            NodeEvent::Packet(packet) => self.receive(now, packet, out),
            NodeEvent::BeaconTurn => {
                self.state.beacon_turn(now, out);
                Ok(())
            }
            NodeEvent::RecoverTurn => self.recover(now, out),
            NodeEvent::Ask { id, call } => self.ask(now, *id, call.as_slice(), out),
        }
    }

    /// Ends a step by how its rule ended. Where it was not made the server is as before the step, and puts nothing out.
    fn end(
        &mut self,
        end: Result<(), StoreFault>,
        given: Option<Dropped>,
        event: &NodeEvent,
        out: &mut Outputs,
    ) -> StepEnd
        requires given { IfSome given (λ dropped. IsOfCell (length self.old.state.cell) dropped.recovery) }
        requires dropped { IfErr end (λ why. why ≢ StoreFault.DiskFault → IfSome given (IsDroppedOf (length self.old.state.cell) self.old.state.image)) }
        ensures { Closes end event.now (returned given self.old.state) (held self.old) (held self.new) out.old out.new result }
    {
        let fault = match end {
            Ok(()) => return StepEnd::Done,
            Err(fault) => fault,
        };
        out.clear();
        match fault {
            StoreFault::DiskFault => {
                self.state.restore_phase(given);
                refuse(event, out)
            }
            _ => {
                self.state.restore(given);
                StepEnd::NoMemory
            }
        }
    }

    /// A packet of another server, at a server that is not halted, after the lapse. One of a host that is not of the cell is nothing.
    fn receive(&mut self, now: u32, packet: &Packet, out: &mut Outputs) -> Result<(), StoreFault>
        requires moment { IsMoment now }
        requires not_halted { self.old.store.failed ≡ false }
        requires kind { IsBuiltBody packet.now.body }
        requires few { length out.old ≤ 100 }
        ensures ends { EndsSo D.Disk V.standing (NeedsFiles packet.now.body (IsSome (D.files self.old.store.disk)))
            (λ o. received_packet (dbs_of o) (own_member self.old) (up_server self.old) now packet.now o.short (place_of self.old.state.cell packet.now.from))
            out.old out.new (held self.old) (held self.new) result }
        ensures alike { OnOk result (AlikeSo V.standing.database (up_server self.old)
            (λ at free. received_packet (free_dbs V.standing.database free) (own_member self.old) at now packet.now free.short
            (place_of self.old.state.cell packet.now.from))
            (up_server self.new) out.old out.new) }
        ensures memory { BodyTakesNoMemory packet.now.body → IsErrOf result StoreFault.DiskFault ⊎ IsOk result }
    {
        let host = packet.from;
        let Some(from) = self.state.cell.index(host) else {
            return Ok(());
        };
        self.heard(now, from, host, &packet.body, out)
    }
}

impl<D: StopDisk, V: DraftService> Node<D, V> {
    ghost use Rattle.ubik_node.specs.Disk.{IsArmed, IsRevived};

    /// Has the disk stop after so many further changing calls, and then leave its files so. Of a halted server nothing comes of it.
    pub fn arm(&mut self, calls: u32, fill: Fill)
        ensures disk { IsArmed D.Disk calls fill self.old.store.disk self.new.store.disk }
        ensures same { (self.new.state ≡ self.old.state) × (self.new.store.failed ≡ self.old.store.failed) × (self.new.last ≡ self.old.last) }
    {
        self.store.arm(calls, fill);
    }

    /// Whether the disk has stopped.
    pub fn stopped(&self) -> bool
        ensures { IsTrue result ↔ IsStopped (D.stop self.now.store.disk) }
    {
        self.store.stopped()
    }

    /// Opens the files of a halted server anew: they are what a crash leaves of them, all synced. The server stays halted.
    pub fn revive(&mut self)
        requires halted { self.old.store.failed ≡ true }
        ensures disk { IsRevived D.Disk self.old.store.disk self.new.store.disk }
        ensures same { (self.new.state ≡ self.old.state) × (self.new.store.failed ≡ self.old.store.failed) × (self.new.last ≡ self.old.last) }
    {
        self.store.revive();
    }
}

/// What a halted server puts out at an event.
fn refuse(event: &NodeEvent, out: &mut Outputs) -> StepEnd
    requires { out.old ≡ [] }
    ensures halted { result ≡ StepEnd.Halted }
    ensures out { out.new ≡ outputs_of (refusals event.now) }
{
    if let NodeEvent::Ask { id, .. } = event {
        put_reply(out, *id, Reply::DiskFault);
    }
    StepEnd::Halted
}
