//! Packets that are handed to their receivers.
ghost use Rattle.std.specs.Prelude.{◌≡◌, ◌≢◌, ◌<◌, ◌≤◌, ◌+◌, ◌-◌, ℕ, List, Some, None, IfOk, Ok, Err, length, []};
ghost use Rattle.std.specs.String.{string_bytes};
ghost use Rattle.cell_model.specs.NodeRule.{place_of};
ghost use Rattle.cell_runs.specs.declared.endings.Ending.TheVariants as ending;
ghost use Rattle.cell_runs.specs.declared.endings.Which.{Which as AWhich};
ghost use Rattle.cell_runs.specs.ScriptDatabase.{script_database};
ghost use Rattle.cell_runs.specs.Script.{Cell, first_choice, delivered, run_in};
ghost use Rattle.cell_script.specs.declared.lines.Line.TheVariants as line;
ghost use Rattle.cell_script.specs.declared.lines.Why.{Why as AWhy};
ghost use Rattle.cell_sites.specs.Disks.{AreRises, AreSettled};
ghost use Rattle.cell_sites.specs.Sites.{IsModelledBy, disks_of, helds};
ghost use Rattle.cell_sites.specs.Sound.{Bounds, IsSound};
ghost use Rattle.cell_sites.specs.Told.{CellTold, IsRefused, IsShort};

use crate::causes::Cause;
use crate::cells::OpenCell;
use crate::faults::LineFault;
use cell_runs::{MAX_PACKETS, Mark, tell_mark};
use db_image::DraftWords;
use disk_base::StopDisk;
use script_laws::law_cells_go_on;
use ubik_types::Host;

impl<D: StopDisk, V: DraftWords> OpenCell<D, V> {
    /// Hands the packet of a number to its receiver, whether it waits or not. A server that is down loses it.
    pub fn deliver(&mut self, number: u64, text: &mut String) -> Result<(), LineFault>
        requires { (bounds : Bounds) × IsSound D.Disk V.standing.database bounds self.old }
        ensures told { result ≡ Ok tt → (given : List ℕ) (c : Cell) → IsModelledBy D.Disk V.standing.database given self.old c →
            CellTold D.Disk (script_database V.standing.database V.words) given
            (λ choices. run_in (script_database V.standing.database V.words) c choices (line.Deliver number))
            None self.old self.new (string_bytes text.old) (string_bytes text.new) }
        ensures limit { (which : AWhich) → result ≡ Err (LineFault.Limit which) →
            (given : List ℕ) (c : Cell) → IsModelledBy D.Disk V.standing.database given self.old c →
            CellTold D.Disk (script_database V.standing.database V.words) given
            (λ choices. run_in (script_database V.standing.database V.words) c choices (line.Deliver number))
            (Some (ending.Limit which)) self.old self.new (string_bytes text.old) (string_bytes text.new) }
        ensures refused { (why : AWhy) → result ≡ Err (LineFault.Refused why) → (self.new ≡ self.old)
            × ((given : List ℕ) (c : Cell) → IsModelledBy D.Disk V.standing.database given self.old c → IsRefused why
            (λ choices. run_in (script_database V.standing.database V.words) c choices (line.Deliver number))) }
        ensures quiet { (why : AWhy) → result ≡ Err (LineFault.Refused why) → string_bytes text.new ≡ string_bytes text.old }
        ensures short { result ≡ Err LineFault.NoMemory → (given : List ℕ) (c : Cell) → IsModelledBy D.Disk V.standing.database given self.old c →
            IsShort D.Disk V.standing.database given
            (λ choices. run_in (script_database V.standing.database V.words) c choices (line.Deliver number)) c self.old self.new }
        ensures sound { result ≡ Ok tt → (bounds : Bounds) → IsSound D.Disk V.standing.database bounds self.old →
            IsSound D.Disk V.standing.database bounds self.new }
        ensures never_falls { AreRises 0 [] (helds D.Disk self.old) (helds D.Disk self.new) }
        ensures settled { AreSettled D.Disk (disks_of self.new) }
        ensures same { length self.new.sites.items ≡ length self.old.sites.items }
    {
        let number = self.sent_number(number)?;
        self.deliver_sent(number, text)
    }

    /// Hands all packets that wait to their receivers, the lowest number first, those among them that are sent meanwhile. There are no
    /// more of them than a script may send.
    pub fn deliver_all(&mut self, text: &mut String) -> Result<(), LineFault>
        requires { (bounds : Bounds) × IsSound D.Disk V.standing.database bounds self.old }
        ensures told { result ≡ Ok tt → (given : List ℕ) (c : Cell) → IsModelledBy D.Disk V.standing.database given self.old c →
            CellTold D.Disk (script_database V.standing.database V.words) given
            (λ choices. run_in (script_database V.standing.database V.words) c choices line.DeliverAll)
            None self.old self.new (string_bytes text.old) (string_bytes text.new) }
        ensures limit { (which : AWhich) → result ≡ Err (LineFault.Limit which) →
            (given : List ℕ) (c : Cell) → IsModelledBy D.Disk V.standing.database given self.old c →
            CellTold D.Disk (script_database V.standing.database V.words) given
            (λ choices. run_in (script_database V.standing.database V.words) c choices line.DeliverAll)
            (Some (ending.Limit which)) self.old self.new (string_bytes text.old) (string_bytes text.new) }
        ensures refused { (why : AWhy) → result ≢ Err (LineFault.Refused why) }
        ensures short { result ≡ Err LineFault.NoMemory → (given : List ℕ) (c : Cell) → IsModelledBy D.Disk V.standing.database given self.old c →
            IsShort D.Disk V.standing.database given
            (λ choices. run_in (script_database V.standing.database V.words) c choices line.DeliverAll) c self.old self.new }
        ensures sound { result ≡ Ok tt → (bounds : Bounds) → IsSound D.Disk V.standing.database bounds self.old →
            IsSound D.Disk V.standing.database bounds self.new }
        ensures never_falls { AreRises 0 [] (helds D.Disk self.old) (helds D.Disk self.new) }
        ensures settled { AreSettled D.Disk (disks_of self.new) }
        ensures same { length self.new.sites.items ≡ length self.old.sites.items }
    {
        for _ in 0..MAX_PACKETS {
            let Some(number) = self.packets.first_waiting() else {
                return Ok(());
            };
            self.deliver_sent(number, text)?;
        }
        Ok(())
    }

    /// Hands over a packet that was sent.
    fn deliver_sent(&mut self, number: u32, text: &mut String) -> Result<(), LineFault>
        requires sound { (bounds : Bounds) × IsSound D.Disk V.standing.database bounds self.old }
        requires some { 0 < number }
        requires sent { number ≤ length self.old.packets.sent }
        ensures told { result ≡ Ok tt → (given : List ℕ) (c : Cell) → IsModelledBy D.Disk V.standing.database given self.old c →
            CellTold D.Disk (script_database V.standing.database V.words) given
            (λ choices. Ok (delivered (script_database V.standing.database V.words) c (first_choice choices) number))
            None self.old self.new (string_bytes text.old) (string_bytes text.new) }
        ensures limit { (which : AWhich) → result ≡ Err (LineFault.Limit which) →
            (given : List ℕ) (c : Cell) → IsModelledBy D.Disk V.standing.database given self.old c →
            CellTold D.Disk (script_database V.standing.database V.words) given
            (λ choices. Ok (delivered (script_database V.standing.database V.words) c (first_choice choices) number))
            (Some (ending.Limit which)) self.old self.new (string_bytes text.old) (string_bytes text.new) }
        ensures refused { (why : AWhy) → result ≢ Err (LineFault.Refused why) }
        ensures short { result ≡ Err LineFault.NoMemory → (given : List ℕ) (c : Cell) → IsModelledBy D.Disk V.standing.database given self.old c →
            IsShort D.Disk V.standing.database given
            (λ choices. Ok (delivered (script_database V.standing.database V.words) c (first_choice choices) number)) c self.old self.new }
        ensures sound { result ≡ Ok tt → (bounds : Bounds) → IsSound D.Disk V.standing.database bounds self.old →
            IsSound D.Disk V.standing.database bounds self.new }
        ensures never_falls { AreRises 0 [] (helds D.Disk self.old) (helds D.Disk self.new) }
        ensures settled { AreSettled D.Disk (disks_of self.new) }
        ensures same { length self.new.sites.items ≡ length self.old.sites.items }
    {
        law_cells_go_on();
        self.packets.hand_over(number);
        let to = self.packets.packet(number).to;
        let Some(k) = place_of(&self.hosts, to) else {
            unreachable!();
        };
        if self.is_up(k) {
            return self.step(k, Cause::Packet(number), text);
        }
        let packet = number;
        tell_mark(text, Mark::Lost { packet })?;
        Ok(())
    }
}

/// The place of the server that has this host.
fn place_of(hosts: &[Host], host: Host) -> Option<usize>
    ensures { result ≡ place_of hosts.now host }
{
    hosts.iter().position(|other| other.0 == host.0)
}
