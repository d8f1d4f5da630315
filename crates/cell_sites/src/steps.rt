//! Steps of one server: its turns, and the calls that it is asked.
ghost use Rattle.std.specs.Prelude.{◌≡◌, ◌≢◌, ◌<◌, ◌+◌, ◌-◌, ◌++◌, ◌∷◌, ℕ, List, Some, None, All, Ok, Err, OnOk, length, filter_map, []};
ghost use Rattle.std.specs.String.{string_bytes};
ghost use Rattle.cell_model.specs.Step.{Shown, cell_size, outputs_of};
ghost use Rattle.cell_model.specs.World.{Trigger, occasion, packet_in};
ghost use Rattle.cell_sites.specs.Telling.{IsNotShort, MayBeTold, WholeTold, told_of};
ghost use Rattle.cell_sites.specs.Traffic.{sent_all};
ghost use Rattle.cell_sites.specs.Calls.{AnswersOf, AsksOf};
ghost use Rattle.cell_sites.specs.Causes.{IsThere, event_at};
ghost use Rattle.cell_runs.specs.declared.endings.Ending.TheVariants as ending;
ghost use Rattle.cell_runs.specs.declared.endings.Which.{Which as AWhich};
ghost use Rattle.cell_runs.specs.ScriptDatabase.{script_database};
ghost use Rattle.cell_runs.specs.Script.{Cell, first_choice, stepped, run_in, asked_at};
ghost use Rattle.cell_script.specs.declared.lines.Line.TheVariants as line;
ghost use Rattle.cell_script.specs.declared.lines.Why.{Why as AWhy};
ghost use Rattle.cell_sites.specs.Disks.{AreRises, AreSettled};
ghost use Rattle.cell_sites.specs.Places.{IsUpAt};
ghost use Rattle.cell_sites.specs.Sites.{IsModelledBy, disks_of, helds};
ghost use Rattle.cell_sites.specs.Sound.{Bounds, IsSound, IsSoundDisk, IsSoundNode, IsSteady, Keeps};
ghost use Rattle.cell_sites.specs.Stepped.{NodeStepped, SiteStepped, UpStepped, member_at};
ghost use Rattle.cell_sites.specs.Taken.{CutsNone};
ghost use Rattle.cell_sites.specs.Told.{CellTold, IsRefused, IsShort};
ghost use Rattle.ubik_node.specs.Built.{IsBuilt};
ghost use Rattle.ubik_node.specs.Node.{HoldsStates, Needs, node_of, own_member};
ghost use Rattle.write_laws.specs.Keeping.{IsBrought};
ghost use Rattle.ubik_types.specs.Moment.{IsMoment};

use crate::causes::{Cause, event_of};
use crate::cells::OpenCell;
use crate::faults::LineFault;
use crate::sites::Server;
use crate::telling::{lacks_memory, tell_outputs};
use cell_runs::{Mark, tell_mark};
use db_image::DraftWords;
use disk_base::StopDisk;
use flight_laws::law_writes_stand;
use recovery_laws::law_images_stand;
use script_laws::law_cells_go_on;
use ubik_node::{Node, NodeEvent, Outputs, StepEnd};
use ubik_types::{Bytes, NoMemory};
use write_laws::{law_replies_tell_memory, law_writes_spread};

impl<D: StopDisk, V: DraftWords> OpenCell<D, V> {
    /// A beacon turn of a server, which is counted from 1.
    pub fn beacon(&mut self, server: u64, text: &mut String) -> Result<(), LineFault>
        requires { (bounds : Bounds) × IsSound D.Disk V.standing.database bounds self.old }
        ensures told { result ≡ Ok tt → (given : List ℕ) (c : Cell) → IsModelledBy D.Disk V.standing.database given self.old c →
            CellTold D.Disk (script_database V.standing.database V.words) given
            (λ choices. run_in (script_database V.standing.database V.words) c choices (line.Beacon server))
            None self.old self.new (string_bytes text.old) (string_bytes text.new) }
        ensures limit { (which : AWhich) → result ≡ Err (LineFault.Limit which) →
            (given : List ℕ) (c : Cell) → IsModelledBy D.Disk V.standing.database given self.old c →
            CellTold D.Disk (script_database V.standing.database V.words) given
            (λ choices. run_in (script_database V.standing.database V.words) c choices (line.Beacon server))
            (Some (ending.Limit which)) self.old self.new (string_bytes text.old) (string_bytes text.new) }
        ensures refused { (why : AWhy) → result ≡ Err (LineFault.Refused why) → (self.new ≡ self.old)
            × ((given : List ℕ) (c : Cell) → IsModelledBy D.Disk V.standing.database given self.old c → IsRefused why
            (λ choices. run_in (script_database V.standing.database V.words) c choices (line.Beacon server))) }
        ensures quiet { (why : AWhy) → result ≡ Err (LineFault.Refused why) → string_bytes text.new ≡ string_bytes text.old }
        ensures short { result ≡ Err LineFault.NoMemory → (given : List ℕ) (c : Cell) → IsModelledBy D.Disk V.standing.database given self.old c →
            IsShort D.Disk V.standing.database given
            (λ choices. run_in (script_database V.standing.database V.words) c choices (line.Beacon server)) c self.old self.new }
        ensures sound { result ≡ Ok tt → (bounds : Bounds) → IsSound D.Disk V.standing.database bounds self.old →
            IsSound D.Disk V.standing.database bounds self.new }
        ensures never_falls { AreRises 0 [] (helds D.Disk self.old) (helds D.Disk self.new) }
        ensures settled { AreSettled D.Disk (disks_of self.new) }
        ensures same { length self.new.sites.items ≡ length self.old.sites.items }
    {
        law_cells_go_on();
        let k = self.place_up(server)?;
        self.step(k, Cause::BeaconTurn, text)
    }

    /// A recovery turn of a server.
    pub fn recover(&mut self, server: u64, text: &mut String) -> Result<(), LineFault>
        requires { (bounds : Bounds) × IsSound D.Disk V.standing.database bounds self.old }
        ensures told { result ≡ Ok tt → (given : List ℕ) (c : Cell) → IsModelledBy D.Disk V.standing.database given self.old c →
            CellTold D.Disk (script_database V.standing.database V.words) given
            (λ choices. run_in (script_database V.standing.database V.words) c choices (line.Recover server))
            None self.old self.new (string_bytes text.old) (string_bytes text.new) }
        ensures limit { (which : AWhich) → result ≡ Err (LineFault.Limit which) →
            (given : List ℕ) (c : Cell) → IsModelledBy D.Disk V.standing.database given self.old c →
            CellTold D.Disk (script_database V.standing.database V.words) given
            (λ choices. run_in (script_database V.standing.database V.words) c choices (line.Recover server))
            (Some (ending.Limit which)) self.old self.new (string_bytes text.old) (string_bytes text.new) }
        ensures refused { (why : AWhy) → result ≡ Err (LineFault.Refused why) → (self.new ≡ self.old)
            × ((given : List ℕ) (c : Cell) → IsModelledBy D.Disk V.standing.database given self.old c → IsRefused why
            (λ choices. run_in (script_database V.standing.database V.words) c choices (line.Recover server))) }
        ensures quiet { (why : AWhy) → result ≡ Err (LineFault.Refused why) → string_bytes text.new ≡ string_bytes text.old }
        ensures short { result ≡ Err LineFault.NoMemory → (given : List ℕ) (c : Cell) → IsModelledBy D.Disk V.standing.database given self.old c →
            IsShort D.Disk V.standing.database given
            (λ choices. run_in (script_database V.standing.database V.words) c choices (line.Recover server)) c self.old self.new }
        ensures sound { result ≡ Ok tt → (bounds : Bounds) → IsSound D.Disk V.standing.database bounds self.old →
            IsSound D.Disk V.standing.database bounds self.new }
        ensures never_falls { AreRises 0 [] (helds D.Disk self.old) (helds D.Disk self.new) }
        ensures settled { AreSettled D.Disk (disks_of self.new) }
        ensures same { length self.new.sites.items ≡ length self.old.sites.items }
    {
        law_cells_go_on();
        let k = self.place_up(server)?;
        self.step(k, Cause::RecoverTurn, text)
    }

    /// A call at a server. Its id is the number of calls that were asked, this one with them.
    pub fn ask(
        &mut self,
        server: u64,
        id: u32,
        call: Bytes,
        text: &mut String,
    ) -> Result<(), LineFault>
        requires sound { (bounds : Bounds) × IsSound D.Disk V.standing.database bounds self.old }
        requires next { id ≡ length self.old.calls + 1 }
        ensures told { result ≡ Ok tt → (given : List ℕ) (c : Cell) → IsModelledBy D.Disk V.standing.database given self.old c →
            CellTold D.Disk (script_database V.standing.database V.words) given
            (λ choices. asked_at (script_database V.standing.database V.words) c (first_choice choices) id call (Some server))
            None self.old self.new (string_bytes text.old) (string_bytes text.new) }
        ensures limit { (which : AWhich) → result ≡ Err (LineFault.Limit which) →
            (given : List ℕ) (c : Cell) → IsModelledBy D.Disk V.standing.database given self.old c →
            CellTold D.Disk (script_database V.standing.database V.words) given
            (λ choices. asked_at (script_database V.standing.database V.words) c (first_choice choices) id call (Some server))
            (Some (ending.Limit which)) self.old self.new (string_bytes text.old) (string_bytes text.new) }
        ensures refused { (why : AWhy) → result ≡ Err (LineFault.Refused why) → (self.new ≡ self.old)
            × ((given : List ℕ) (c : Cell) → IsModelledBy D.Disk V.standing.database given self.old c → IsRefused why
            (λ choices. asked_at (script_database V.standing.database V.words) c (first_choice choices) id call (Some server))) }
        ensures quiet { (why : AWhy) → result ≡ Err (LineFault.Refused why) → string_bytes text.new ≡ string_bytes text.old }
        ensures short { result ≡ Err LineFault.NoMemory → (given : List ℕ) (c : Cell) → IsModelledBy D.Disk V.standing.database given self.old c →
            IsShort D.Disk V.standing.database given
            (λ choices. asked_at (script_database V.standing.database V.words) c (first_choice choices) id call (Some server)) c self.old self.new }
        ensures sound { result ≡ Ok tt → (bounds : Bounds) → bounds.asks < id → IsSound D.Disk V.standing.database bounds self.old →
            IsSound D.Disk V.standing.database (record bounds { asks = id }) self.new }
        ensures never_falls { AreRises 0 [] (helds D.Disk self.old) (helds D.Disk self.new) }
        ensures settled { AreSettled D.Disk (disks_of self.new) }
        ensures same { length self.new.sites.items ≡ length self.old.sites.items }
    {
        law_cells_go_on();
        let k = self.place_up(server)?;
        self.keep(id, call)?;
        self.step(k, Cause::Call(id), text)
    }

    /// Keeps a call, which may be answered long after.
    fn keep(&mut self, id: u32, call: Bytes) -> Result<(), NoMemory>
        requires { id ≡ length self.old.calls + 1 }
        ensures kept { OnOk result (self.new.calls ≡ self.old.calls ++ call ∷ []) }
        ensures same { self.new ≡ record self.old { calls = self.new.calls } }
    {
        self.calls.push(id, call)
    }

    /// A step of a server that is up, at its clock.
    pub(crate) fn step(
        &mut self,
        k: usize,
        cause: Cause,
        text: &mut String,
    ) -> Result<(), LineFault>
        requires sound { (bounds : Bounds) × IsSound D.Disk V.standing.database bounds self.old }
        requires up { IsUpAt self.old k }
        requires there { IsThere self.old cause }
        requires brought { IsBrought (member_at self.old k) (event_at self.old cause) }
        requires asks { AsksOf self.old.calls (event_at self.old cause) }
        ensures told { result ≡ Ok tt →
            (given : List ℕ) (c : Cell) (trigger : Trigger) → IsModelledBy D.Disk V.standing.database given self.old c →
            occasion c.run.world trigger ≡ Some (k, event_at self.old cause) →
            CellTold D.Disk (script_database V.standing.database V.words) given
            (λ choices. Ok (stepped (script_database V.standing.database V.words) c (first_choice choices) trigger))
            None self.old self.new (string_bytes text.old) (string_bytes text.new) }
        ensures limit { (which : AWhich) → result ≡ Err (LineFault.Limit which) →
            (given : List ℕ) (c : Cell) (trigger : Trigger) → IsModelledBy D.Disk V.standing.database given self.old c →
            occasion c.run.world trigger ≡ Some (k, event_at self.old cause) →
            CellTold D.Disk (script_database V.standing.database V.words) given
            (λ choices. Ok (stepped (script_database V.standing.database V.words) c (first_choice choices) trigger))
            (Some (ending.Limit which)) self.old self.new (string_bytes text.old) (string_bytes text.new) }
        ensures refused { (why : AWhy) → result ≢ Err (LineFault.Refused why) }
        ensures short { result ≡ Err LineFault.NoMemory →
            (given : List ℕ) (c : Cell) (trigger : Trigger) → IsModelledBy D.Disk V.standing.database given self.old c →
            occasion c.run.world trigger ≡ Some (k, event_at self.old cause) →
            IsShort D.Disk V.standing.database given
            (λ choices. Ok (stepped (script_database V.standing.database V.words) c (first_choice choices) trigger)) c self.old self.new }
        ensures steady { result ≡ Ok tt → (bound : ℕ) → IsSteady D.Disk bound self.old → IsSteady D.Disk bound self.new }
        ensures keeps { result ≡ Ok tt → Keeps V.standing.database self.new }
        ensures calls { self.new.calls ≡ self.old.calls }
        ensures never_falls { AreRises 0 [] (helds D.Disk self.old) (helds D.Disk self.new) }
        ensures settled { AreSettled D.Disk (disks_of self.new) }
        ensures same { length self.new.sites.items ≡ length self.old.sites.items }
    {
        law_writes_spread();
        law_replies_tell_memory();
        match self.step_site(k, cause) {
            SiteEnd::NoMemory => Err(LineFault::NoMemory),
            SiteEnd::Made => self.tell_step(k, false, text),
            SiteEnd::Halts => self.tell_step(k, true, text),
            SiteEnd::Stops => {
                let server = k as u32;
                Ok(tell_mark(text, Mark::Stops { server })?)
            }
        }
    }

    /// Tells a step of the server at a place: what it put out, and then whether it was halted. A reply for want of memory is want of memory:
    /// then nothing is told.
    fn tell_step(&mut self, k: usize, halts: bool, text: &mut String) -> Result<(), LineFault>
        requires place { k < 20 }
        requires short { All MayBeTold self.old.outputs }
        ensures told { result ≡ Ok tt → (shown : List Shown) → outputs_of shown ≡ self.old.outputs → All (AnswersOf self.old.calls) shown →
            WholeTold (script_database V.standing.database V.words) self.old.hosts.items k halts
            (record { text = string_bytes text.old; sent = self.old.packets.sent }) shown (string_bytes text.new) self.new.packets.sent }
        ensures limit { (which : AWhich) → result ≡ Err (LineFault.Limit which) →
            (shown : List Shown) → outputs_of shown ≡ self.old.outputs → All (AnswersOf self.old.calls) shown →
            told_of (script_database V.standing.database V.words) self.old.hosts.items k
            (record { text = string_bytes text.old; sent = self.old.packets.sent }) shown
            ≡ record { after = record { text = string_bytes text.new; sent = self.new.packets.sent }; ending = Some (ending.Limit which) } }
        ensures refused { (why : AWhy) → result ≢ Err (LineFault.Refused why) }
        ensures found { result ≢ Err LineFault.NoMemory → All IsNotShort self.old.outputs }
        ensures sends { result ≡ Ok tt → self.new.packets ≡ sent_all self.old.packets (filter_map packet_in self.old.outputs) }
        ensures emptied { result ≡ Ok tt → self.new.outputs ≡ [] }
        ensures hosts { self.new.hosts.items ≡ self.old.hosts.items }
        ensures sites { self.new.sites.items ≡ self.old.sites.items }
        ensures calls { self.new.calls ≡ self.old.calls }
    {
        if lacks_memory(&self.outputs) {
            return Err(LineFault::NoMemory);
        }
        let server = k as u32;
        tell_outputs::<V>(
            text,
            &self.hosts,
            server,
            &self.calls,
            &mut self.outputs,
            &mut self.packets,
        )?;
        if halts {
            tell_mark(text, Mark::Halts { server })?;
        }
        Ok(())
    }

    /// A step of a server that is up, at its clock, which leaves what it put out. Where its disk fails, the files are opened anew; where that
    /// stopped, the server is down, and what it put out is dropped.
    fn step_site(&mut self, k: usize, cause: Cause) -> SiteEnd
        requires sound { (bounds : Bounds) × IsSound D.Disk V.standing.database bounds self.old }
        requires up { IsUpAt self.old k }
        requires there { IsThere self.old cause }
        requires brought { IsBrought (member_at self.old k) (event_at self.old cause) }
        ensures { SiteStepped D.Disk V.standing.database k (event_at self.old cause) result self.old self.new }
    {
        let end = self.step_up(k, cause);
        if let SiteEnd::Stops = end {
            drop_outputs(&mut self.outputs);
            self.take_down(k);
        }
        end
    }

    /// The step alone: a server whose disk stopped is up still.
    fn step_up(&mut self, k: usize, cause: Cause) -> SiteEnd
        requires sound { (bounds : Bounds) × IsSound D.Disk V.standing.database bounds self.old }
        requires up { IsUpAt self.old k }
        requires there { IsThere self.old cause }
        requires brought { IsBrought (member_at self.old k) (event_at self.old cause) }
        ensures { UpStepped D.Disk V.standing.database k (event_at self.old cause) result self.old self.new }
    {
        law_images_stand::<V>();
        law_writes_stand::<V>();
        let event = event_of(cause, &self.packets, &self.calls, &self.turns);
        let site = &mut self.sites[k];
        let clock = site.clock;
        let Server::Up(node) = &mut site.server else {
            unreachable!();
        };
        step_node(node, clock, event, &mut self.outputs)
    }
}

/// Drops what a server put out.
fn drop_outputs(out: &mut Outputs)
    ensures { out.new ≡ [] }
{
    while out.take().is_some() {}
}

/// How a step of a server ended for its cell.
#[derive(Clone, Copy, Debug, PartialEq, Eq)]
pub enum SiteEnd {
    /// It was made, or the server was halted before.
    Made,
    /// The disk failed in it: the server is halted, and its files are opened anew.
    Halts,
    /// The disk stopped in it.
    Stops,
    /// Memory ran out: nothing changed.
    NoMemory,
}

/// A step of a server that is up, at a moment. Where it is halted in it by a fault of the disk that is no stop, the files are opened anew.
fn step_node<D: StopDisk, V: DraftWords>(
    node: &mut Node<D, V>,
    clock: u32,
    event: &NodeEvent,
    out: &mut Outputs,
) -> SiteEnd
    requires moment { IsMoment clock }
    requires place { (own_member node.old).me < cell_size (own_member node.old) }
    requires sound { IsSoundNode D.Disk (own_member node.old) clock node.old }
    requires built { IsBuilt event.now }
    requires cuts { CutsNone V.standing.database (own_member node.old) event.now clock (node_of node.old) }
    requires needs { Needs V.standing.database (own_member node.old) (node_of node.old) event.now clock (D.files node.old.store.disk) }
    requires holds { HoldsStates V.standing (node_of node.old) }
    requires disk { IsSoundDisk D.Disk node.old.store.disk }
    requires empty { out.old ≡ [] }
    ensures { NodeStepped D.Disk V.standing.database (own_member node.old) clock event.now result node.old node.new out.new }
{
    let was_halted = node.halted();
    match node.step_on(clock, event, out) {
        StepEnd::Done => SiteEnd::Made,
        StepEnd::NoMemory => SiteEnd::NoMemory,
        StepEnd::Halted if was_halted => SiteEnd::Made,
        StepEnd::Halted if node.stopped() => SiteEnd::Stops,
        StepEnd::Halted => {
            node.revive();
            SiteEnd::Halts
        }
    }
}
