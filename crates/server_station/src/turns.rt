//! The turns of a station: what a frame that came is, the step for it, and the frames that go out of that.
ghost use Rattle.std.specs.Prelude.{◌≡◌, ◌+◌, ◌%◌, ◌<◌, ◌^◌, ◌∷◌, [], length, max, option_to_list, true};
ghost use Rattle.ubik_types.specs.Moment.{IsMoment};
ghost use Rattle.ubik_calls.specs.declared.frames.Frame.TheVariants as frames;
ghost use Rattle.ubik_calls.specs.WireGrammar.{HasSpelling};
ghost use Rattle.server_station.specs.Fit.{IsFit, IsFramed, IsNext, is_taken};

use crate::Station;
use crate::askers::Asker;
use crate::recorded::StationEnd;
use crate::spelling::send_all;
use db_image::DraftService;
use disk_base::Disk;
use server_journal::{Keeper, Opening, Seat};
use server_rounds::{Sending, Sendings, Turn, TurnEnd};
use ubik_calls::{Frame, FrameFault, decode, encode};
use ubik_node::NodeEvent;

impl<D: Disk, V: DraftService, L: Opening, J: Keeper> Station<D, V, L, J> {
    ghost use Rattle.ubik_calls.specs.Reading.{frame_of};
    ghost use Rattle.ubik_node.specs.Node.{own_member};
    ghost use Rattle.server_journal.specs.Counts.{asks_of};
    ghost use Rattle.server_station.specs.Turns.{IsFullByFrame, RestsBy, Turned, TurnsBy, act_of, act_of_frame, debug_answer, seen};

    /// Makes a turn, at `now` or at the moment of the last step, whichever is later, in seconds: a step at most. `out` is empty before it,
    /// and then has what goes out of the step. What a step that was made has in the journal is kept before anything goes out of it.
    ///
    /// It ends with Done where all was done that the turn asks for, and with Halted where the disk has failed in its step or before. With
    /// Cut the step was made, and memory ran out while its frames were spelled: `out` has the first of them. With JournalFull and NoMemory
    /// no step was made, and nothing goes out.
    pub fn turn(&mut self, seat: &mut Seat<L>, now: u32, turn: Turn, out: &mut Sendings) -> TurnEnd
        requires all { L.all ≡ L.parts }
        requires moment { IsMoment now }
        requires empty { out.old ≡ [] }
        ensures turned { Turned D.Disk V.standing (J.limits self.old.recorded.journal)
            (act_of (own_member self.old.recorded.node) (asks_of (J.items self.old.recorded.journal)) turn) (max self.old.recorded.node.last now)
            (seen self.old.recorded.node (J.items self.old.recorded.journal) self.old.askers self.old.recorded.past.outputs.value)
            (seen self.new.recorded.node (J.items self.new.recorded.journal) self.new.askers self.new.recorded.past.outputs.value) out.new result }
        ensures framed { IsFullByFrame (J.items self.old.recorded.journal) result }
        ensures limits { J.limits self.new.recorded.journal ≡ J.limits self.old.recorded.journal }
        ensures share { seat.new.share.amount + length (J.items self.old.recorded.journal) ≡ seat.old.share.amount + length (J.items self.new.recorded.journal) }
        ensures lent { self.new.recorded.shares.lent ≡ self.old.recorded.shares.lent }
        ensures opened { self.new.recorded.past.opened.value ≡ self.old.recorded.past.opened.value }
    {
        match turn {
            Turn::Beacon => self.step_for(seat, now, NodeEvent::BeaconTurn, None, out),
            Turn::Recover => self.step_for(seat, now, NodeEvent::RecoverTurn, None, out),
            Turn::Frame { peer, frame } => self.take_frame(seat, now, peer, frame.as_slice(), out),
        }
    }

    /// Does what a frame asks for. Packets for other servers, or of none of the cell's others, are answered nothing, as
    /// is what is no frame.
    fn take_frame(
        &mut self,
        seat: &mut Seat<L>,
        now: u32,
        peer: u64,
        frame: &[u8],
        out: &mut Sendings,
    ) -> TurnEnd
        requires all { L.all ≡ L.parts }
        requires moment { IsMoment now }
        requires empty { out.old ≡ [] }
        ensures turned { Turned D.Disk V.standing (J.limits self.old.recorded.journal)
            (act_of_frame (own_member self.old.recorded.node) (asks_of (J.items self.old.recorded.journal)) peer (frame_of frame.now)) (max self.old.recorded.node.last now)
            (seen self.old.recorded.node (J.items self.old.recorded.journal) self.old.askers self.old.recorded.past.outputs.value)
            (seen self.new.recorded.node (J.items self.new.recorded.journal) self.new.askers self.new.recorded.past.outputs.value) out.new result }
        ensures framed { IsFullByFrame (J.items self.old.recorded.journal) result }
        ensures limits { J.limits self.new.recorded.journal ≡ J.limits self.old.recorded.journal }
        ensures share { seat.new.share.amount + length (J.items self.old.recorded.journal) ≡ seat.old.share.amount + length (J.items self.new.recorded.journal) }
        ensures lent { self.new.recorded.shares.lent ≡ self.old.recorded.shares.lent }
        ensures opened { self.new.recorded.past.opened.value ≡ self.old.recorded.past.opened.value }
    {
        match decode(self.alloc, frame) {
            Ok(Frame::Packet(packet)) => {
                if !self.recorded.node.takes(&packet) {
                    return TurnEnd::Done;
                }
                self.step_for(seat, now, NodeEvent::Packet(packet), None, out)
            }
            Ok(Frame::Ask { number, call }) => {
                let id = self.next_id();
                let asker = Asker { id, peer, number };
                self.step_for(seat, now, NodeEvent::Ask { id, call }, Some(asker), out)
            }
            Ok(Frame::Debug { number }) => self.tell(now, peer, number, out),
            Ok(Frame::Reply { .. }) | Ok(Frame::DebugIs { .. }) => TurnEnd::Done,
            Err(FrameFault::NoMemory) => TurnEnd::NoMemory,
            Err(_) => TurnEnd::Done,
        }
    }

    /// The id of the next call. Behind the last id of 32 bits the journal is full, and no call is made under it.
    fn next_id(&self) -> u32
        ensures { result ≡ (asks_of (J.items self.now.recorded.journal) + 1) % 2 ^ 32 }
    {
        let asks = self.recorded.journal.counts().asks % (1 << 32);
        (asks as u32).wrapping_add(1)
    }

    /// Tells a peer of the server.
    fn tell(&self, now: u32, peer: u64, number: u32, out: &mut Sendings) -> TurnEnd
        requires moment { IsMoment now }
        requires empty { out.old ≡ [] }
        ensures { RestsBy (seen self.now.recorded.node (J.items self.now.recorded.journal) self.now.askers self.now.recorded.past.outputs.value)
            (seen self.now.recorded.node (J.items self.now.recorded.journal) self.now.askers self.now.recorded.past.outputs.value)
            (debug_answer self.now.recorded.node (max self.now.recorded.node.last now) peer number ∷ []) out.new result }
    {
        let is = self.debug(now);
        let Ok(frame) = encode(self.alloc, &Frame::DebugIs { number, is }) else {
            return TurnEnd::NoMemory;
        };
        match out.push(Sending::Answer { peer, frame }) {
            Ok(()) => TurnEnd::Done,
            Err(_) => TurnEnd::NoMemory,
        }
    }

    /// Makes a step, for whose reply a client may wait, and sends what goes out of it.
    fn step_for(
        &mut self,
        seat: &mut Seat<L>,
        now: u32,
        event: NodeEvent,
        asker: Option<Asker>,
        out: &mut Sendings,
    ) -> TurnEnd
        requires all { L.all ≡ L.parts }
        requires moment { IsMoment now }
        requires fit { IsFit event }
        requires framed { IsFramed event }
        requires next { asks_of (J.items self.old.recorded.journal) + 1 < 2 ^ 32 → IsNext (asks_of (J.items self.old.recorded.journal)) event }
        requires taken { is_taken (own_member self.old.recorded.node) event ≡ true }
        requires empty { out.old ≡ [] }
        ensures turned { TurnsBy D.Disk V.standing (J.limits self.old.recorded.journal) event (option_to_list asker) (max self.old.recorded.node.last now)
            (seen self.old.recorded.node (J.items self.old.recorded.journal) self.old.askers self.old.recorded.past.outputs.value)
            (seen self.new.recorded.node (J.items self.new.recorded.journal) self.new.askers self.new.recorded.past.outputs.value) out.new result }
        ensures framed { IsFullByFrame (J.items self.old.recorded.journal) result }
        ensures limits { J.limits self.new.recorded.journal ≡ J.limits self.old.recorded.journal }
        ensures share { seat.new.share.amount + length (J.items self.old.recorded.journal) ≡ seat.old.share.amount + length (J.items self.new.recorded.journal) }
        ensures lent { self.new.recorded.shares.lent ≡ self.old.recorded.shares.lent }
        ensures opened { self.new.recorded.past.opened.value ≡ self.old.recorded.past.opened.value }
    {
        let now = self.recorded.moment(now);
        let Station {
            alloc,
            recorded,
            askers,
            outputs,
        } = self;
        let waiting = askers.len();
        if askers.add(asker).is_err() {
            return TurnEnd::NoMemory;
        }
        let end = match recorded.step(seat, now, event, outputs) {
            StationEnd::Done => TurnEnd::Done,
            StationEnd::Halted => TurnEnd::Halted,
            StationEnd::JournalFull { entries, bytes } => {
                askers.cut(waiting);
                return TurnEnd::JournalFull { entries, bytes };
            }
            StationEnd::NoMemory => {
                askers.cut(waiting);
                return TurnEnd::NoMemory;
            }
        };
        if send_all(*alloc, askers, outputs, out).is_err() {
            outputs.clear();
            return TurnEnd::Cut;
        }
        end
    }
}
