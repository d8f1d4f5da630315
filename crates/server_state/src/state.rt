//! What a server keeps between two steps, apart from its disk.
ghost use Rattle.std.specs.Option.{ForSome};
ghost use Rattle.std.specs.Prelude.{◌≡◌, ◌≤◌, ◌<◌, ◌+◌, ◌++◌, [], length, None, IsSome, is_some, option_copied};
ghost use Rattle.ubik_types.specs.Version.{IsVersion};
ghost use Rattle.ubik_types.specs.declared.limits.TheConstants.{MAX_IMAGE};
ghost use Rattle.ubik_types.specs.declared.versions.TheConstants.{MAX_COUNTER};
ghost use Rattle.cell_model.specs.Lapse.{no_quorum};
ghost use Rattle.cell_model.specs.Step.{outputs_of, packet_to, sends_to, with_database};
ghost use Rattle.ubik_calls.specs.declared.frames.Frame.TheVariants as frames;
ghost use Rattle.ubik_calls.specs.WireGrammar.{HasSpelling};
ghost use Rattle.ubik_recovery.specs.Record.{held_alone, with_text};
ghost use Rattle.ubik_recovery.specs.Rules.{recovering};
ghost use Rattle.server_state.specs.Keeping.{IsKeptOver};
ghost use Rattle.server_state.specs.Plain.{IsPlainBody};
ghost use Rattle.server_state.specs.Recovering.{IsOfCell, IsServing};
ghost use Rattle.server_state.specs.Spelled.{IsSpelledReply};
ghost use Rattle.server_state.specs.Writing.{AreOfCell, announced_of, own_of, waiting_of};

use crate::beacons::ReadyBeacon;
use crate::held_images::HeldImage;
use crate::outputs::Outputs;
use cell_model::Output;
use site_writes::{OwnWrite, SiteWrites};
use ubik_calls::{Body, Packet, Reply};
use ubik_recovery::Recovery;
use ubik_types::{Applied, Cell, Host, Phase, Version};
use ubik_votes::Votes;
use ubik_write::Pending;

/// A server that is up: its cell and its place in it, its version and image, its votes, the ready beacon that
/// it keeps, its recovery, the write that another server began, and its own writes: none before its first one, and after a lapse.
#[derive(Drop)]
pub struct State {
    pub cell: Cell,
    pub me: usize,
    pub version: Version,
    pub image: HeldImage,
    pub votes: Votes,
    pub beacon: Option<ReadyBeacon>,
    pub recovery: Recovery,
    pub pending: Option<Pending>,
    pub writes: Option<SiteWrites>,
    ghost few: { length cell ≤ 20 },
    ghost place: { me < length cell },
    ghost voters: { votes.servers ≡ length cell },
    ghost voter: { votes.me ≡ me },
    ghost epoch_fits: { version.epoch ≤ MAX_COUNTER },
    ghost counter_fits: { version.counter ≤ MAX_COUNTER },
    ghost image_fits: { length image ≤ MAX_IMAGE },
    ghost of_cell: { IsOfCell (length cell) recovery },
    ghost begun: { ForSome pending (IsKeptOver version) },
    ghost serving: { IsSome (own_of writes) → IsServing recovery },
    ghost line: { ¬ IsServing recovery → waiting_of writes ≡ [] },
    ghost written: { AreOfCell (length cell) image writes },
}

impl State {
    ghost use Rattle.server_state.specs.State.{server_of, member_of};

    /// The refusal of a server behind which no quorum stands, with its phase, and whether the call may have been made.
    pub fn no_quorum(&self, now: u32, phase: Phase, applied: Applied) -> Reply
        ensures reply { result ≡ no_quorum (member_of self.now) (server_of self.now) now phase applied }
        ensures spelled { IsSpelledReply result }
    {
        Reply::NoQuorum {
            now,
            until: self.votes.lease_until(),
            phase,
            applied,
        }
    }

    /// The write in flight.
    pub fn in_flight(&self) -> Option<&OwnWrite>
        ensures { option_copied result ≡ own_of self.now.writes }
    {
        match &self.writes {
            Some(writes) => writes.in_flight(),
            None => None,
        }
    }

    /// Whether a write is in flight.
    pub fn is_writing(&self) -> bool
        ensures { result ≡ is_some (own_of self.now.writes) }
    {
        self.in_flight().is_some()
    }

    /// The version that is announced: during a write in flight the one before it.
    pub(crate) fn announced(&self) -> Version
        ensures announced { result ≡ announced_of self.now.version (own_of self.now.writes) }
        ensures version { IsVersion result }
    {
        match self.in_flight() {
            Some(write) => write.versions().0,
            None => self.version,
        }
    }

    /// Sends one packet to a host.
    pub fn send(&self, to: Host, body: Body, out: &mut Outputs)
        requires few { length out.old ≤ 180 }
        requires plain { IsPlainBody body }
        ensures sent { out.new ≡ out.old ++ outputs_of (sends_to (member_of self.now) to body) }
        ensures len { length out.new ≡ length out.old + 1 }
    {
        out.put(Output::Send(self.packet_to(to, body)));
    }

    /// Another version and image are taken over. The text that was received is dropped, and the write that was begun.
    pub fn take_over(&mut self, version: Version, image: HeldImage)
        requires resting { ¬ IsServing self.old.recovery }
        requires version { IsVersion version }
        requires fits { length image ≤ MAX_IMAGE }
        ensures after { server_of self.new ≡ with_database (server_of self.old) version image }
        ensures place { member_of self.new ≡ member_of self.old }
        ensures image { self.new.image ≡ image }
        ensures version { self.new.version ≡ version }
    {
        self.recovery.drop_text();
        self.pending = None;
        self.version = version;
        self.image = image;
    }

    /// A commit that a majority has at once, since this server is alone: only it has the version.
    pub fn take_commit(&mut self, version: Version, image: HeldImage)
        requires alone { length self.old.cell ≡ 1 }
        requires free { own_of self.old.writes ≡ None }
        requires version { IsVersion version }
        requires fits { length image ≤ MAX_IMAGE }
        ensures after { server_of self.new ≡ recovering version (with_text (held_alone self.old.recovery 0) None) (with_database (server_of self.old) version image) }
        ensures place { member_of self.new ≡ member_of self.old }
        ensures image { self.new.image ≡ image }
        ensures version { self.new.version ≡ version }
    {
        self.recovery.drop_text();
        self.pending = None;
        self.recovery.hold_alone(self.me);
        self.version = version;
        self.image = image;
    }

    /// The database gets another version. The text that was received is dropped, and the write that was begun.
    pub fn relabel(&mut self, version: Version)
        requires resting { ¬ IsServing self.old.recovery }
        requires version { IsVersion version }
        ensures after { server_of self.new ≡ with_database (server_of self.old) version self.old.image }
        ensures place { member_of self.new ≡ member_of self.old }
        ensures image { self.new.image ≡ self.old.image }
        ensures version { self.new.version ≡ version }
    {
        self.recovery.drop_text();
        self.pending = None;
        self.version = version;
    }

    /// A packet of this server to a host.
    pub(crate) fn packet_to(&self, to: Host, body: Body) -> Packet
        requires plain { IsPlainBody body }
        ensures packet { result ≡ packet_to (member_of self.now) to body }
        ensures spelled { HasSpelling (frames.Packet result) }
    {
        let from = self.cell.host(self.me);
        Packet { from, to, body }
    }
}
