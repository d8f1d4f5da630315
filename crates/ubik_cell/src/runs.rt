//! The lines of a script, run over the database of its cell.
ghost use Rattle.std.specs.Prelude.{◌≡◌, ◌≢◌, ◌+◌, ◌-◌, ◌<◌, ◌≤◌, ℕ, List, [], length, Some, None, Ok, Err, All, IfOk, OnErr, OnOk, drop, vec_len, vec_capacity};
ghost use Rattle.std.specs.String.{string_bytes};
ghost use Rattle.disk_base.specs.Crash.{IsSettled};
ghost use Rattle.disk_base.specs.Files.{no_files};
ghost use Rattle.disk_base.specs.Stops.DiskStop.{Unarmed};
ghost use Rattle.ubik_types.specs.declared.limits.TheConstants.{MAXSERVERS};
ghost use Rattle.cell_script.specs.declared.readers.TheConstants.{MAX_LINE};
ghost use Rattle.cell_runs.specs.Script.{Told, first_told};
ghost use Rattle.cell_sites.specs.Disks.{AreSettled, all_held};
ghost use Rattle.cell_sites.specs.Opened.{counts_of};
ghost use Rattle.script_promises.specs.Databases.{databases};
ghost use Rattle.ubik_cell.specs.Lines.{ShortLine};
ghost use Rattle.ubik_cell.specs.ScriptRuns.{HasNoCell, IsEmptyScript, IsSoundScript, OpensItsKind, ScriptTold, StandsAt, script_disks, script_helds, script_kind_opened, script_lines, script_sites, script_spare};

use crate::scripts::{CellRun, RunEnd};
use cell_script::Kind;
use disk_base::{Disk, StopDisk};
use pt_database::PtService;
use std::alloc::Global;
use std::mem::replace;
use ubik_types::NoMemory;
use vl_database::VlService;

/// A run over the database that its cell keeps. Before a cell stands it is over either of them.
#[derive(Drop)]
pub enum ScriptRun<D: Disk> {
    /// Over the protection database.
    Protection(CellRun<D, PtService>),
    /// Over the location database.
    Location(CellRun<D, VlService>),
}

impl<D: StopDisk> ScriptRun<D> {
    /// A run before its first line. It takes the disks out of their list, disk i for server i + 1.
    pub fn new(alloc: Global, disks: &mut Vec<D>) -> Result<ScriptRun<D>, NoMemory>
        requires twenty { vec_len disks.old ≡ MAXSERVERS }
        requires empty { All (λ disk. D.files disk ≡ Some no_files) disks.old.items }
        requires settled { All (λ disk. IsSettled (D.files disk) (D.may_leave disk)) disks.old.items }
        requires unarmed { All (λ disk. D.stop disk ≡ Unarmed) disks.old.items }
        ensures at { IfOk result (λ run. StandsAt D.Disk (counts_of D.Disk disks.old.items) run first_told) }
        ensures sound { IfOk result (IsSoundScript D.Disk) }
        ensures taken { IfOk result (λ run. (disks.new.items ≡ []) × (vec_capacity disks.new ≡ vec_capacity disks.old)) }
        ensures spare { IfOk result (λ run. (script_spare run ≡ disks.old.items) × (script_sites run ≡ 0)) }
        ensures kept { OnErr result (disks.new ≡ disks.old) }
    {
        let run = CellRun::new(alloc, disks)?;
        Ok(ScriptRun::Protection(run))
    }

    /// How many lines were run.
    pub fn lines(&self) -> u32
        ensures { result ≡ script_lines self.now }
    {
        match self {
            ScriptRun::Protection(run) => run.lines(),
            ScriptRun::Location(run) => run.lines(),
        }
    }

    /// Takes all servers down, and puts the disks into an empty list, each in its place.
    pub fn close(self, disks: &mut Vec<D>)
        requires count { script_sites self + length (script_spare self) ≡ MAXSERVERS }
        requires empty { disks.old.items ≡ [] }
        requires room { MAXSERVERS ≤ vec_capacity disks.old }
        ensures disks { disks.new.items ≡ script_disks self }
        ensures held { all_held D.Disk disks.new.items ≡ script_helds D.Disk self }
        ensures others { drop (script_sites self) disks.new.items ≡ script_spare self }
        ensures twenty { vec_len disks.new ≡ MAXSERVERS }
    {
        match self {
            ScriptRun::Protection(run) => run.close(disks),
            ScriptRun::Location(run) => run.close(disks),
        }
    }

    /// The kind of the cell that a line opens, where none stands yet.
    fn kind_opened(&self, line: &[u8]) -> Result<Option<Kind>, NoMemory>
        ensures { IfOk result (λ kind. kind ≡ script_kind_opened self.now line.now) }
    {
        match self {
            ScriptRun::Protection(run) => run.kind_opened(line),
            ScriptRun::Location(run) => run.kind_opened(line),
        }
    }

    /// Puts the run over the database of this kind. No cell stands yet.
    fn turn_to(&mut self, kind: Kind)
        requires none { HasNoCell self.old }
        requires sound { IsSoundScript D.Disk self.old }
        ensures kind { (line : List ℕ) → script_kind_opened self.old line ≡ Some kind → OpensItsKind line self.new }
        ensures stands { (given : List ℕ) (t : Told) → StandsAt D.Disk given self.old t → StandsAt D.Disk given self.new t }
        ensures same { (script_lines self.new ≡ script_lines self.old) × (script_spare self.new ≡ script_spare self.old) }
        ensures none { (script_sites self.new ≡ 0) × (script_helds D.Disk self.new ≡ script_helds D.Disk self.old) }
        ensures sound { IsSoundScript D.Disk self.new }
    {
        match self {
            ScriptRun::Protection(run) => match kind {
                Kind::Protection => {}
                Kind::Location => {
                    let next = ScriptRun::Location(run.hand_over());
                    replace(self, next).destroy_empty();
                }
            },
            ScriptRun::Location(run) => match kind {
                Kind::Location => {}
                Kind::Protection => {
                    let next = ScriptRun::Protection(run.hand_over());
                    replace(self, next).destroy_empty();
                }
            },
        }
    }

    /// Lets go of a run that has no cell and no disks.
    fn destroy_empty(self)
        requires { IsEmptyScript self }
    {
        match self {
            ScriptRun::Protection(run) => run.destroy_empty(),
            ScriptRun::Location(run) => run.destroy_empty(),
        }
    }

    /// Puts the run over the database of the cell that a line opens, if it opens one.
    fn turn_for(&mut self, line: &[u8]) -> Result<(), NoMemory>
        requires sound { IsSoundScript D.Disk self.old }
        ensures opens { OnOk result (OpensItsKind line.now self.new) }
        ensures stands { (given : List ℕ) (t : Told) → StandsAt D.Disk given self.old t → StandsAt D.Disk given self.new t }
        ensures same { (script_lines self.new ≡ script_lines self.old) × (script_spare self.new ≡ script_spare self.old) }
        ensures sites { (script_sites self.new ≡ script_sites self.old) × (script_helds D.Disk self.new ≡ script_helds D.Disk self.old) }
        ensures sound { IsSoundScript D.Disk self.new }
    {
        match self.kind_opened(line)? {
            Some(kind) => {
                self.turn_to(kind);
                Ok(())
            }
            None => Ok(()),
        }
    }

    /// The next line, where it opens no cell of another kind.
    fn own_line(&mut self, line: &[u8], text: &mut String) -> Result<(), RunEnd>
        requires sound { IsSoundScript D.Disk self.old }
        requires opens { OpensItsKind line.now self.old }
        ensures told { result ≢ Err RunEnd.NoMemory → (given : List ℕ) (t : Told) → StandsAt D.Disk given self.old t → t.ended ≡ None →
            ScriptTold D.Disk given line.now t result self.new (string_bytes text.old) (string_bytes text.new) }
        ensures short { result ≡ Err RunEnd.NoMemory → (given : List ℕ) (t : Told) → StandsAt D.Disk given self.old t → t.ended ≡ None →
            ShortLine databases given line.now t (script_helds D.Disk self.new) }
        ensures sound { result ≡ Ok tt → IsSoundScript D.Disk self.new }
        ensures longer { result ≡ Ok tt → script_lines self.new ≡ script_lines self.old + 1 }
        ensures disks { script_sites self.new + length (script_spare self.new) ≡ MAXSERVERS }
        ensures spare { script_spare self.new ≡ drop (script_sites self.new - script_sites self.old) (script_spare self.old) }
        ensures settled { AreSettled D.Disk (script_disks self.new) }
    {
        match self {
            ScriptRun::Protection(run) => run.line(line, text),
            ScriptRun::Location(run) => run.line(line, text),
        }
    }

    /// The next line of the script, without its LF: what is told of it is added to the text, and, where the script ends in it, why.
    pub fn line(&mut self, line: &[u8], text: &mut String) -> Result<(), RunEnd>
        requires sound { IsSoundScript D.Disk self.old }
        ensures told { result ≢ Err RunEnd.NoMemory → (given : List ℕ) (t : Told) → StandsAt D.Disk given self.old t → t.ended ≡ None →
            ScriptTold D.Disk given line.now t result self.new (string_bytes text.old) (string_bytes text.new) }
        ensures short { result ≡ Err RunEnd.NoMemory → (given : List ℕ) (t : Told) → StandsAt D.Disk given self.old t → t.ended ≡ None →
            ShortLine databases given line.now t (script_helds D.Disk self.new) }
        ensures sound { result ≡ Ok tt → IsSoundScript D.Disk self.new }
        ensures longer { result ≡ Ok tt → script_lines self.new ≡ script_lines self.old + 1 }
        ensures disks { script_sites self.new + length (script_spare self.new) ≡ MAXSERVERS }
        ensures spare { script_spare self.new ≡ drop (script_sites self.new - script_sites self.old) (script_spare self.old) }
        ensures settled { AreSettled D.Disk (script_disks self.new) }
    {
        match self.turn_for(line) {
            Ok(()) => self.own_line(line, text),
            Err(NoMemory) => Err(RunEnd::NoMemory),
        }
    }

    /// The next line of the script where it has more bytes than a line may have.
    pub fn long_line(&self, text: &mut String) -> Result<(), RunEnd>
        requires sound { IsSoundScript D.Disk self.now }
        ensures told { result ≢ Err RunEnd.NoMemory → (given : List ℕ) (line : List ℕ) (t : Told) → MAX_LINE < length line →
            StandsAt D.Disk given self.now t → t.ended ≡ None →
            ScriptTold D.Disk given line t result self.now (string_bytes text.old) (string_bytes text.new) }
        ensures short { result ≡ Err RunEnd.NoMemory → (given : List ℕ) (line : List ℕ) (t : Told) → MAX_LINE < length line →
            StandsAt D.Disk given self.now t → ShortLine databases given line t (script_helds D.Disk self.now) }
        ensures ends { result ≢ Ok tt }
    {
        match self {
            ScriptRun::Protection(run) => run.long_line(text),
            ScriptRun::Location(run) => run.long_line(text),
        }
    }
}
