//! The lines of a script, run one after the other.
ghost use Rattle.std.specs.Prelude.{◌≡◌, ◌≢◌, ◌+◌, ◌-◌, ◌<◌, ◌≤◌, ◌++◌, ℕ, List, [], length, Some, None, Ok, Err, All, IfOk, OnErr, OnOk, Option, take, vec_len, vec_capacity, drop};
ghost use Rattle.std.specs.String.{string_bytes};
ghost use Rattle.disk_base.specs.Crash.{IsSettled};
ghost use Rattle.disk_base.specs.Files.{no_files};
ghost use Rattle.disk_base.specs.Stops.DiskStop.{Unarmed};
ghost use Rattle.ubik_types.specs.declared.limits.TheConstants.{MAXSERVERS, MAX_MOMENT};
ghost use Rattle.ubik_types.specs.Moment.{IsMoment};
ghost use Rattle.cell_script.specs.Meaning.{HasBounds};
ghost use Rattle.cell_script.specs.declared.lines.Kind.{Kind};
ghost use Rattle.cell_script.specs.declared.lines.Line.TheVariants as line;
ghost use Rattle.cell_script.specs.declared.lines.TheConstants.{MAX_CLOCK, MAX_TICK};
ghost use Rattle.cell_script.specs.declared.readers.TheConstants.{MAX_LINE};
ghost use Rattle.cell_runs.specs.declared.limits.TheConstants.{MAX_LINES};
ghost use Rattle.cell_runs.specs.Script.{LineRead, Stage, Told, first_told, line_result, run_in};
ghost use Rattle.cell_runs.specs.Trace.{ending_text};
ghost use Rattle.cell_runs.specs.ScriptDatabase.{Databases, script_database};
ghost use Rattle.cell_sites.specs.Disks.{AreSettled, all_held};
ghost use Rattle.cell_sites.specs.Opened.{ArePartOpened, HasRoom, counts_of};
ghost use Rattle.cell_sites.specs.Sites.{disks_of, helds};
ghost use Rattle.cell_sites.specs.Sound.{Bounds, IsSound};
ghost use Rattle.ubik_cell.specs.LineRuns.{CellDone, KeepsCell, KeepsRun, LineDone, ReadDone};
ghost use Rattle.ubik_cell.specs.ScriptRuns.{kind_opened};
ghost use Rattle.ubik_cell.specs.Lines.{IsAt, IsSoundRun, LineTold, LineShort, AreUnwritten, only, run_disks, run_helds, sites_in};

use cell_runs::{Ending, MAX_LINES, Which, tell_ending};
use cell_script::{Kind, Line, Why, Words, line_meaning};
use cell_sites::{LineFault, OpenCell, law_cell_opened};
use db_image::DraftWords;
use disk_base::{Disk, StopDisk};
use std::alloc::Global;
use std::mem::replace;
use ubik_types::NoMemory;

/// Why a script goes no further.
#[derive(Clone, Copy, Debug, PartialEq, Eq)]
pub enum RunEnd {
    /// It ends in this line, which told so.
    Ended(Ending),
    /// Memory ran out.
    NoMemory,
}

/// What the lines of a script so far left: a cell, once one is opened.
#[derive(Drop)]
pub struct CellRun<D: Disk, V> {
    alloc: Global,
    lines: u32,
    asks: u32,
    cell: Option<OpenCell<D, V>>,
    spare: Vec<D>,
}

impl<D: StopDisk, V: DraftWords> CellRun<D, V> {
    /// A run before its first line. It takes the disks out of their list, disk i for server i + 1.
    pub fn new(alloc: Global, disks: &mut Vec<D>) -> Result<CellRun<D, V>, NoMemory>
        requires twenty { vec_len disks.old ≡ MAXSERVERS }
        requires empty { All (λ disk. D.files disk ≡ Some no_files) disks.old.items }
        requires settled { All (λ disk. IsSettled (D.files disk) (D.may_leave disk)) disks.old.items }
        requires unarmed { All (λ disk. D.stop disk ≡ Unarmed) disks.old.items }
        ensures at { IfOk result (λ run. (dbs : Databases) → IsAt D.Disk dbs (counts_of D.Disk disks.old.items) run first_told) }
        ensures sound { IfOk result (λ run. IsSoundRun D.Disk V.standing run) }
        ensures taken { IfOk result (λ run. (disks.new.items ≡ []) × (vec_capacity disks.new ≡ vec_capacity disks.old)) }
        ensures spare { IfOk result (λ run. (run.spare.items ≡ disks.old.items) × (sites_in run.cell ≡ 0)) }
        ensures kept { OnErr result (disks.new ≡ disks.old) }
    {
        let mut spare = Vec::with_capacity(alloc, disks.len())?;
        spare.append(disks).unwrap();
        Ok(CellRun {
            alloc,
            lines: 0,
            asks: 0,
            cell: None,
            spare,
        })
    }

    /// How many lines were run.
    pub fn lines(&self) -> u32
        ensures { result ≡ self.now.lines }
    {
        self.lines
    }

    /// The same run over another database, which takes the disks. No cell stands.
    pub fn hand_over<W: DraftWords>(&mut self) -> CellRun<D, W>
        requires none { self.old.cell ≡ None }
        ensures none { result.cell ≡ None }
        ensures same { (result.lines ≡ self.old.lines) × (result.asks ≡ self.old.asks) × (result.spare ≡ self.old.spare) }
        ensures empty { (self.new.cell ≡ None) × (self.new.spare.items ≡ []) }
    {
        let spare = replace(&mut self.spare, Vec::new(self.alloc));
        CellRun {
            alloc: self.alloc,
            lines: self.lines,
            asks: self.asks,
            cell: None,
            spare,
        }
    }

    /// Lets go of a run that has no cell and no disks.
    pub fn destroy_empty(self)
        requires none { self.cell ≡ None }
        requires empty { self.spare.items ≡ [] }
    {
        let CellRun { cell, spare, .. } = self;
        match cell {
            None => spare.destroy_empty(),
            Some(_) => unreachable!(),
        }
    }

    /// The kind of the cell that a line opens, where none stands yet.
    pub fn kind_opened(&self, line: &[u8]) -> Result<Option<Kind>, NoMemory>
        ensures { IfOk result (λ kind. kind ≡ kind_opened self.now.cell line.now) }
    {
        if self.cell.is_some() {
            return Ok(None);
        }
        match line_meaning(self.alloc, line)? {
            Ok(Line::Cell { kind, .. }) => Ok(Some(kind)),
            _ => Ok(None),
        }
    }

    /// Takes all servers down, and puts the disks into an empty list, each in its place.
    pub fn close(self, disks: &mut Vec<D>)
        requires count { sites_in self.cell + length self.spare.items ≡ MAXSERVERS }
        requires empty { disks.old.items ≡ [] }
        requires room { MAXSERVERS ≤ vec_capacity disks.old }
        ensures disks { disks.new.items ≡ run_disks self }
        ensures held { all_held D.Disk disks.new.items ≡ run_helds D.Disk self }
        ensures others { drop (sites_in self.cell) disks.new.items ≡ self.spare.items }
        ensures twenty { vec_len disks.new ≡ MAXSERVERS }
    {
        let CellRun {
            cell,
            mut spare,
            ..
        } = self;
        if let Some(cell) = cell {
            cell.close(disks);
        }
        disks.append(&mut spare).unwrap();
        spare.destroy_empty();
    }

    /// Opens a cell of so many servers at a clock: at first and once.
    fn open(&mut self, servers: u32, clock: u32, text: &mut String) -> Result<(), LineFault>
        requires some { 1 ≤ servers }
        requires few { servers ≤ MAXSERVERS }
        requires moment { IsMoment clock }
        requires early { clock ≤ MAX_CLOCK }
        requires room { self.old.lines < MAX_LINES }
        requires sound { IsSoundRun D.Disk V.standing self.old }
        ensures done { (k : Kind) → LineDone D.Disk (script_database V.standing.database V.words) (line.Cell servers clock k) result
            self.old self.new (string_bytes text.old) (string_bytes text.new) }
        ensures kept { KeepsRun D.Disk V.standing result self.old self.new }
        ensures settled { AreSettled D.Disk (run_disks self.new) }
    {
        if self.cell.is_some() {
            return Err(Why::Cell.into());
        }
        law_cell_opened::<D, V>();
        let mut cell = OpenCell::new(self.alloc, servers as usize)?;
        let opened = open_servers(&mut cell, &mut self.spare, servers, clock, text);
        match self.cell.replace(cell) {
            None => Ok(opened?),
            Some(_) => unreachable!(),
        }
    }

    /// Asks a server a call in words. Once a cell stands the words come first: the number of the server is judged after them.
    fn ask(
        &mut self,
        server: Option<u64>,
        words: &Words,
        text: &mut String,
    ) -> Result<(), LineFault>
        requires room { self.old.lines < MAX_LINES }
        requires sound { IsSoundRun D.Disk V.standing self.old }
        ensures done { LineDone D.Disk (script_database V.standing.database V.words) (line.Ask server words.now) result
            self.old self.new (string_bytes text.old) (string_bytes text.new) }
        ensures kept { KeepsRun D.Disk V.standing result self.old self.new }
        ensures settled { AreSettled D.Disk (run_disks self.new) }
    {
        let Some(cell) = &mut self.cell else {
            return Err(server.map_or(Why::Number, |_| Why::Cell).into());
        };
        let Some(call) = V::call_words(self.alloc, words.as_slice())? else {
            return Err(Why::Syntax.into());
        };
        let server = server.ok_or(Why::Number)?;
        let id = self.asks + 1;
        cell.ask(server, id, call, text)?;
        self.asks = id;
        Ok(())
    }

    /// A line that was understood.
    fn run_line(&mut self, line: &Line, text: &mut String) -> Result<(), LineFault>
        requires bounds { HasBounds line.now }
        requires room { self.old.lines < MAX_LINES }
        requires sound { IsSoundRun D.Disk V.standing self.old }
        ensures done { LineDone D.Disk (script_database V.standing.database V.words) line.now result
            self.old self.new (string_bytes text.old) (string_bytes text.new) }
        ensures kept { KeepsRun D.Disk V.standing result self.old self.new }
        ensures settled { AreSettled D.Disk (run_disks self.new) }
    {
        match line {
            Line::Nothing => Ok(()),
            Line::Cell { servers, clock, .. } => self.open(*servers, *clock, text),
            Line::Ask { server, call } => self.ask(*server, call, text),
            Line::Tick { .. }
            | Line::TickAll { .. }
            | Line::Beacon { .. }
            | Line::Recover { .. }
            | Line::Deliver { .. }
            | Line::Drop { .. }
            | Line::DropAll { .. }
            | Line::DeliverAll
            | Line::Stop { .. }
            | Line::Crash { .. }
            | Line::Restart { .. }
            | Line::Show { .. } => match &mut self.cell {
                None => Err(Why::Cell.into()),
                Some(cell) => run_in_cell(cell, line, text),
            },
        }
    }

    /// A line as it was read. A script has 20,000 of them at most.
    fn read_line(&mut self, line: &[u8], text: &mut String) -> Result<(), LineFault>
        requires sound { IsSoundRun D.Disk V.standing self.old }
        ensures done { ReadDone D.Disk (script_database V.standing.database V.words) line.now result
            self.old self.new (string_bytes text.old) (string_bytes text.new) }
        ensures kept { KeepsRun D.Disk V.standing result self.old self.new }
        ensures settled { AreSettled D.Disk (run_disks self.new) }
    {
        if self.lines >= MAX_LINES {
            return Err(LineFault::Limit(Which::Lines));
        }
        let meaning = line_meaning(self.alloc, line)?;
        let line = meaning?;
        self.run_line(&line, text)
    }

    /// The next line of the script, without its LF: what is told of it is added to the text, and, where the script ends in it, why.
    pub fn line(&mut self, line: &[u8], text: &mut String) -> Result<(), RunEnd>
        requires sound { IsSoundRun D.Disk V.standing self.old }
        ensures told { result ≢ Err RunEnd.NoMemory → (given : List ℕ) (t : Told) → IsAt D.Disk (only (script_database V.standing.database V.words)) given self.old t → t.ended ≡ None →
            LineTold D.Disk (only (script_database V.standing.database V.words)) given line.now t result self.new (string_bytes text.old) (string_bytes text.new) }
        ensures short { result ≡ Err RunEnd.NoMemory → (given : List ℕ) (t : Told) → IsAt D.Disk (only (script_database V.standing.database V.words)) given self.old t → t.ended ≡ None →
            LineShort D.Disk (only (script_database V.standing.database V.words)) given line.now t self.new }
        ensures sound { result ≡ Ok tt → IsSoundRun D.Disk V.standing self.new }
        ensures longer { result ≡ Ok tt → self.new.lines ≡ self.old.lines + 1 }
        ensures disks { sites_in self.new.cell + length self.new.spare.items ≡ MAXSERVERS }
        ensures spare { self.new.spare.items ≡ drop (sites_in self.new.cell - sites_in self.old.cell) self.old.spare.items }
        ensures settled { AreSettled D.Disk (run_disks self.new) }
    {
        match self.read_line(line, text) {
            Ok(()) => {
                self.lines += 1;
                Ok(())
            }
            Err(LineFault::NoMemory) => Err(RunEnd::NoMemory),
            Err(LineFault::Refused(why)) => self.end(Ending::Refused(why), text),
            Err(LineFault::Limit(which)) => self.end(Ending::Limit(which), text),
        }
    }

    /// The next line of the script where it has more bytes than a line may have.
    pub fn long_line(&self, text: &mut String) -> Result<(), RunEnd>
        requires sound { IsSoundRun D.Disk V.standing self.now }
        ensures told { result ≢ Err RunEnd.NoMemory → (given : List ℕ) (line : List ℕ) (t : Told) → MAX_LINE < length line → IsAt D.Disk (only (script_database V.standing.database V.words)) given self.now t → t.ended ≡ None →
            LineTold D.Disk (only (script_database V.standing.database V.words)) given line t result self.now (string_bytes text.old) (string_bytes text.new) }
        ensures short { result ≡ Err RunEnd.NoMemory → (given : List ℕ) (line : List ℕ) (t : Told) → IsAt D.Disk (only (script_database V.standing.database V.words)) given self.now t →
            LineShort D.Disk (only (script_database V.standing.database V.words)) given line t self.now }
        ensures ends { result ≢ Ok tt }
    {
        let ending = self.long_ending();
        self.end(ending, text)
    }

    /// How the script ends at the next line where it has more bytes than a line may have.
    fn long_ending(&self) -> Ending
        ensures { (dbs : Databases) (st : Stage) (r : LineRead) → st.lines ≡ self.now.lines → MAX_LINE < length r.line →
            line_result dbs st r ≡ Err result }
    {
        if self.lines >= MAX_LINES {
            Ending::Limit(Which::Lines)
        } else {
            Ending::Refused(Why::Syntax)
        }
    }

    /// Tells that the script ends in the next line, and why.
    fn end(&self, ending: Ending, text: &mut String) -> Result<(), RunEnd>
        requires few { self.now.lines ≤ MAX_LINES }
        ensures told { result ≢ Err RunEnd.NoMemory → (result ≡ Err (RunEnd.Ended ending))
            × (string_bytes text.new ≡ string_bytes text.old ++ ending_text (self.now.lines + 1) ending) }
        ensures ends { result ≢ Ok tt }
    {
        match tell_ending(text, self.lines + 1, ending) {
            Ok(()) => Err(RunEnd::Ended(ending)),
            Err(NoMemory) => Err(RunEnd::NoMemory),
        }
    }
}

/// Opens the servers of a cell over these disks, one after the other. Each disk has its place in the cell also where memory ran out.
fn open_servers<D: StopDisk, V: DraftWords>(
    cell: &mut OpenCell<D, V>,
    spare: &mut Vec<D>,
    servers: u32,
    clock: u32,
    text: &mut String,
) -> Result<(), NoMemory>
    requires moment { IsMoment clock }
    requires room { HasRoom cell.old }
    requires none { cell.old.sites.items ≡ [] }
    requires servers { servers ≡ length cell.old.hosts.items }
    requires enough { servers ≤ vec_len spare.old }
    requires empty { All (λ disk. D.files disk ≡ Some no_files) spare.old.items }
    requires settled { All (λ disk. IsSettled (D.files disk) (D.may_leave disk)) spare.old.items }
    requires unarmed { All (λ disk. D.stop disk ≡ Unarmed) spare.old.items }
    requires opened { ArePartOpened D.Disk (script_database V.standing.database V.words) clock [] cell.old (string_bytes text.old) (string_bytes text.old) }
    ensures opened { OnOk result (ArePartOpened D.Disk (script_database V.standing.database V.words) clock (take servers spare.old.items)
        cell.new (string_bytes text.old) (string_bytes text.new)) }
    ensures all { OnOk result (length cell.new.sites.items ≡ servers) }
    ensures spare { spare.new.items ≡ drop (length cell.new.sites.items) spare.old.items }
    ensures unwritten { AreUnwritten (counts_of D.Disk (take (length cell.new.sites.items) spare.old.items)) (helds D.Disk cell.new) }
    ensures settled { AreSettled D.Disk (disks_of cell.new) }
    ensures room { HasRoom cell.new }
    ensures hosts { cell.new.hosts.items ≡ cell.old.hosts.items }
    ensures few { length cell.new.sites.items ≤ servers }
{
    for _ in 0..servers {
        let disk = spare.remove(0);
        cell.open_next(disk, clock, text)?;
    }
    Ok(())
}

/// A line in a cell that stands, but for an ask.
fn run_in_cell<D: StopDisk, V: DraftWords>(
    cell: &mut OpenCell<D, V>,
    line: &Line,
    text: &mut String,
) -> Result<(), LineFault>
    requires bounds { HasBounds line.now }
    requires sound { (bounds : Bounds) × IsSound D.Disk V.standing.database bounds cell.old × (bounds.clock + MAX_TICK ≤ MAX_MOMENT) }
    ensures done { CellDone D.Disk (script_database V.standing.database V.words)
        (λ c choices. run_in (script_database V.standing.database V.words) c choices line.now) result
        cell.old cell.new (string_bytes text.old) (string_bytes text.new) }
    ensures kept { KeepsCell D.Disk V.standing result cell.old cell.new }
    ensures settled { AreSettled D.Disk (disks_of cell.new) }
{
    match line {
        Line::Nothing => Ok(()),
        Line::Cell { .. } => Err(Why::Cell.into()),
        Line::Tick { server, seconds } => Ok(cell.tick(*server, *seconds)?),
        Line::TickAll { seconds } => Ok(cell.tick_all(*seconds)),
        Line::Beacon { server } => cell.beacon(*server, text),
        Line::Recover { server } => cell.recover(*server, text),
        Line::Deliver { packet } => cell.deliver(*packet, text),
        Line::Drop { packet } => Ok(cell.drop_packet(*packet)?),
        Line::DropAll { server } => Ok(cell.drop_all(*server)?),
        Line::DeliverAll => cell.deliver_all(text),
        Line::Show { server } => cell.show(*server, text),
        Line::Ask { .. } => Err(Why::Syntax.into()),
        Line::Stop {
            server,
            calls,
            fill,
        } => Ok(cell.stop(*server, *calls, *fill)?),
        Line::Crash { server } => Ok(cell.crash(*server)?),
        Line::Restart { server } => cell.restart(*server, text),
    }
}
