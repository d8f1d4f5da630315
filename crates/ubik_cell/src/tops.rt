//! A whole script: read line by line, each line run and told.
ghost use Rattle.std.specs.Prelude.{◌≡◌, ◌≢◌, ◌+◌, ◌-◌, ◌++◌, ◌<◌, ◌≤◌, ℕ, Bool, List, Option, Some, None, Ok, Err, IsSome, IfSome, [], vec_len, vec_capacity, length, drop, All};
ghost use Rattle.std.specs.String.{string_bytes};
ghost use Rattle.disk_base.specs.Count.{HasCause};
ghost use Rattle.disk_base.specs.Crash.{IsSettled};
ghost use Rattle.disk_base.specs.Files.{no_files};
ghost use Rattle.disk_base.specs.Stops.DiskStop.{Unarmed};
ghost use Rattle.ubik_types.specs.declared.limits.TheConstants.{MAXSERVERS};
ghost use Rattle.cell_script.specs.Write.{AppendsPart};
ghost use Rattle.cell_sites.specs.Disks.{AreSettled};
ghost use Rattle.script_promises.specs.Databases.{databases};
ghost use Rattle.ubik_cell.specs.Disks.{AllFresh};
ghost use Rattle.ubik_cell.specs.Headline.{Headline};
ghost use Rattle.ubik_cell.specs.Runs.{IsDoneOrShort, IsInside, kind_at, status_of};
ghost use Rattle.ubik_cell.specs.ScriptRuns.{IsSoundScript, script_disks, script_helds, script_lines, script_sites, script_spare};
ghost use Rattle.ubik_cell.specs.Turns.{Ran, RanOver, SoFar, end_after};

use crate::cells::{CellEnd, CellKind};
use crate::runs::ScriptRun;
use crate::scripts::RunEnd;
use cell_promises::law_cells_keep_promises;
use cell_runs::Ending;
use cell_script::{LineEnd, LineReader, write_whole};
use disk_base::{Sink, Source, StopDisk};
use script_laws::{
    law_faults_have_servers, law_memory_is_found, law_scripts_are_runs, law_sound_fronts,
};
use script_promises::{law_scripts_keep_promises, law_words_are_calls};
use std::alloc::Global;

/// How a script ends that ends at this line.
fn kind_at(line: u32, ending: Ending) -> CellKind
    ensures { result ≡ kind_at line ending }
{
    match ending {
        Ending::Refused(why) => CellKind::ScriptRefused { line, why },
        Ending::Limit(which) => CellKind::Limit { line, which },
    }
}

/// Writes what a line told, and how the script ends in it, if it does.
fn write_line<K: Sink>(
    out: &mut K,
    told: Result<(), RunEnd>,
    line: u32,
    text: &str,
) -> Option<CellKind>
    ensures unwritten { told ≡ Err RunEnd.NoMemory → (result ≡ Some CellKind.NoMemory) × (out.new ≡ out.old) }
    ensures whole { told ≢ Err RunEnd.NoMemory → result ≢ Some CellKind.WriteFault → (result ≡ end_after line told)
        × IfSome (K.written out.old) (λ before. K.written out.new ≡ Some (before ++ text.now)) }
    ensures part { result ≡ Some CellKind.WriteFault → (told ≢ Err RunEnd.NoMemory)
        × IfSome (K.written out.old) (λ before. AppendsPart before (K.written out.new) text.now) }
    ensures cause { HasCause (K.faults out.old) (K.faults out.new) (result ≡ Some CellKind.WriteFault) }
{
    if let Err(RunEnd::NoMemory) = told {
        return Some(CellKind::NoMemory);
    }
    if write_whole(out, text.as_bytes()).is_err() {
        return Some(CellKind::WriteFault);
    }
    match told {
        Err(RunEnd::Ended(ending)) => Some(kind_at(line, ending)),
        _ => None,
    }
}

/// Reads one line of the script, and runs and tells it. None: the script goes on.
fn turn<S: Source, K: Sink, D: StopDisk>(
    reader: &mut LineReader,
    input: &mut S,
    out: &mut K,
    run: &mut ScriptRun<D>,
    text: &mut String,
) -> Option<CellKind>
    requires sound { IsSoundScript D.Disk run.old }
    ensures goes { result ≡ None → IfSome (K.written out.old) (λ written. (given script before : List ℕ) →
        SoFar D.Disk given script reader.old.ended (S.left input.old) before
        (Some written) run.old →
        SoFar D.Disk given script reader.new.ended (S.left input.new) before
        (K.written out.new) run.new) }
    ensures ends { IfSome result (λ kind. IfSome (K.written out.old) (λ written. (given script before : List ℕ) →
        SoFar D.Disk given script reader.old.ended (S.left input.old) before
        (Some written) run.old →
        Ran kind databases given script (S.left input.new) before (K.written out.new)
        (script_sites run.new) (script_helds D.Disk run.new))) }
    ensures sound { result ≡ None → IsSoundScript D.Disk run.new }
    ensures longer { result ≡ None → script_lines run.new ≡ script_lines run.old + 1 }
    ensures disks { script_sites run.new + length (script_spare run.new) ≡ MAXSERVERS }
    ensures spare { script_spare run.new ≡ drop (script_sites run.new - script_sites run.old) (script_spare run.old) }
    ensures settled { AreSettled D.Disk (script_disks run.new) }
    ensures read_cause { HasCause (S.faults input.old) (S.faults input.new) (result ≡ Some CellKind.ReadFault) }
    ensures write_cause { HasCause (K.faults out.old) (K.faults out.new) (result ≡ Some CellKind.WriteFault) }
    ensures no_words { (place : ℕ) → result ≢ Some (CellKind.Words place) }
{
    text.clear();
    let line = run.lines() + 1;
    match reader.next_line(input) {
        LineEnd::End => Some(CellKind::Done),
        LineEnd::Failed => Some(CellKind::ReadFault),
        LineEnd::TooLong => {
            let told = run.long_line(text);
            write_line(out, told, line, text)
        }
        LineEnd::Line => {
            let told = run.line(reader.line(), text);
            write_line(out, told, line, text)
        }
    }
}

/// Runs a script to its end, over the disks.
fn run_script<S: Source, K: Sink, D: StopDisk>(
    alloc: Global,
    input: &mut S,
    out: &mut K,
    disks: &mut Vec<D>,
) -> CellKind
    requires twenty { vec_len disks.old ≡ MAXSERVERS }
    requires empty { All (λ disk. D.files disk ≡ Some no_files) disks.old.items }
    requires settled { All (λ disk. IsSettled (D.files disk) (D.may_leave disk)) disks.old.items }
    requires unarmed { All (λ disk. D.stop disk ≡ Unarmed) disks.old.items }
    ensures ran { IfSome (S.left input.old) (λ script. IfSome (K.written out.old) (λ before.
        RanOver D.Disk result databases script (S.left input.new) before (K.written out.new)
        disks.old.items disks.new.items)) }
    ensures read_cause { HasCause (S.faults input.old) (S.faults input.new) (result ≡ CellKind.ReadFault) }
    ensures write_cause { HasCause (K.faults out.old) (K.faults out.new) (result ≡ CellKind.WriteFault) }
    ensures no_words { (place : ℕ) → result ≢ CellKind.Words place }
    ensures settled { AreSettled D.Disk disks.new.items }
    ensures twenty { vec_len disks.new ≡ MAXSERVERS }
{
    let Ok(mut reader) = LineReader::new(alloc) else {
        return CellKind::NoMemory;
    };
    let Ok(mut run) = ScriptRun::new(alloc, disks) else {
        return CellKind::NoMemory;
    };
    let mut text = String::new(alloc);
    loop {
        if let Some(kind) = turn(&mut reader, input, out, &mut run, &mut text) {
            run.close(disks);
            return kind;
        }
    }
}

/// Runs the script that the source gives, one line after the other, and writes its exact trace. It takes no
/// words: where one is given, nothing is read or written. There are 20 disks; disk i is that of server i + 1, and
/// each stands in its place at every end, with nothing pending on it.
pub fn cell_top<S: Source, K: Sink, D: StopDisk>(
    alloc: Global,
    words: &[String],
    input: &mut S,
    out: &mut K,
    disks: &mut Vec<D>,
) -> CellEnd
    requires twenty { vec_len disks.old ≡ 20 }
    requires fresh { AllFresh D.files D.may_leave D.stop D.faults disks.old.items }
    ensures headline { IfSome (S.left input.old) (λ script. IfSome (K.written out.old) (λ before.
        Headline D.Disk result.kind script (S.left input.new) before (K.written out.new) disks.old.items disks.new.items)) }
    ensures complete { length words.now ≡ 0 → S.faults input.new ≡ S.faults input.old → K.faults out.new ≡ K.faults out.old →
        All (λ disk. D.faults disk ≡ 0) disks.new.items → IfSome (S.left input.old) (λ script. IfSome (K.written out.old) (λ before.
        IsInside databases script → IsDoneOrShort result.kind)) }
    ensures status { result.status ≡ status_of result.kind }
    ensures read_cause { HasCause (S.faults input.old) (S.faults input.new) (result.kind ≡ CellKind.ReadFault) }
    ensures write_cause { HasCause (K.faults out.old) (K.faults out.new) (result.kind ≡ CellKind.WriteFault) }
    ensures words { 0 < length words.now → result.kind ≡ CellKind.Words 1 }
    ensures word_cause { (place : ℕ) → result.kind ≡ CellKind.Words place →
        (0 < length words.now) × (input.new ≡ input.old) × (out.new ≡ out.old) × (disks.new ≡ disks.old) }
    ensures settled { AreSettled D.Disk disks.new.items }
    ensures twenty { vec_len disks.new ≡ 20 }
{
    law_scripts_are_runs();
    law_memory_is_found();
    law_sound_fronts();
    law_faults_have_servers();
    law_scripts_keep_promises();
    law_cells_keep_promises();
    law_words_are_calls();
    if !words.is_empty() {
        let kind = CellKind::Words { place: 1 };
        return CellEnd {
            status: kind.status(),
            kind,
        };
    }
    let kind = run_script(alloc, input, out, disks);
    CellEnd {
        status: kind.status(),
        kind,
    }
}
