//! `ubik_cell`: runs the script on standard input, and prints its exact trace on standard output. With the one word
//! `--help` or `--version` it tells that instead. What the trace does not tell of the exit status, standard error does.
#![tactic(auto)]

ghost use Rattle.std.specs.Prelude.{◌≡◌, ◌≢◌, ◌<◌, ◌≤◌, ◌⊎◌, ◌↔◌, ◌++◌, ℕ, IfSome, IsSome, IsNone, IfOk, IfErr, IsTrue, [], vec_len, length, drop, map, string_bytes, option_copied};
ghost use Rattle.std.specs.Io.Buffered.{writer_buffer};
ghost use Rattle.std.specs.IoError.{error_kind};
ghost use Rattle.std.specs.Vec.Iter.{into_iter_items};
ghost use Rattle.cell_script.specs.Write.{AppendsPart};
ghost use Rattle.disk_base.specs.Count.{HasCause};
ghost use Rattle.disk_base.specs.MemDisk.{now_of, disk_may_leave, disk_stop, disk_faults};
ghost use Rattle.ubik_cell.specs.Disks.{AllFresh};
ghost use Rattle.ubik_cell.specs.Runs.{status_of};
ghost use Rattle.ubik_cell_main.specs.Telling.{text_of_word, text_for, message};

use cell_script::write_whole;
use disk_base::{MemDisk, ReaderSource, Sink, WriterSink};
use std::alloc::Global;
use std::env::{self, Args};
use std::io::{self, BufReader, BufWriter, ErrorKind, Read, Write};
use std::process::ExitCode;
use ubik_cell::{CellEnd, CellKind, cell_top};
use ubik_types::{MAXSERVERS, NoMemory};

/// What `--help` tells.
const HELP: &str = "\
ubik_cell runs the script on standard input, and prints its exact trace on
standard output. Its disks lie in memory, and end with the program.

It takes no words, but for one alone: --help tells this, --version the version.
docs/FORMATS.md describes the language of scripts and traces.

Exit statuses:
  0  the script was read to its end, and its whole trace was written
  1  a line was refused, as the last line of the trace tells
  2  standard input failed
  3  standard output failed
  4  a limit was reached, as the last line of the trace tells
  5  memory ran out
  6  a word was given; nothing was read or written
";

/// What `--version` tells.
const VERSION: &str = "ubik_cell 0.1.0\n";

const NO_INPUT: &str = "ubik_cell: standard input failed\n";

const NO_OUTPUT: &str = "ubik_cell: standard output failed\n";

const NO_MEMORY: &str = "ubik_cell: memory ran out\n";

const NO_WORDS: &str = "ubik_cell: it takes no words; the script comes on standard input\n";

/// How the script ended, and whether all of its trace went out with the last flush.
#[derive(Clone, Copy)]
struct Ended {
    end: CellEnd,
    flushed: bool,
}

/// The empty disks of a cell, in memory.
fn fresh_disks(alloc: Global) -> Result<Vec<MemDisk>, NoMemory>
    ensures twenty { IfOk result (λ disks. vec_len disks ≡ 20) }
    ensures fresh { IfOk result (λ disks. AllFresh (λ disk. Some (now_of disk)) disk_may_leave disk_stop disk_faults disks.items) }
{
    let mut disks = Vec::with_capacity(alloc, MAXSERVERS)?;
    for _ in 0..MAXSERVERS {
        disks.push(MemDisk::new(alloc, &[])?)?;
    }
    Ok(disks)
}

/// Runs the script, and has what is left of its trace in the buffer go out at every end.
fn run_buffered<R: Read + Drop, W: Write + Drop>(
    alloc: Global,
    words: &[String],
    reader: R,
    writer: BufWriter<W>,
    disks: &mut Vec<MemDisk>,
) -> (Ended, BufWriter<W>)
    requires twenty { vec_len disks.old ≡ 20 }
    requires fresh { AllFresh (λ disk. Some (now_of disk)) disk_may_leave disk_stop disk_faults disks.old.items }
    ensures words { 0 < length words.now → result.0.end.kind ≡ CellKind.Words 1 }
    ensures word_cause { (place : ℕ) → result.0.end.kind ≡ CellKind.Words place → 0 < length words.now }
    ensures status { result.0.end.status ≡ status_of result.0.end.kind }
    ensures flushed { IsTrue result.0.flushed → writer_buffer result.1 ≡ [] }
{
    let mut input = ReaderSource::new(reader);
    let mut out = WriterSink::new(writer);
    let end = cell_top(alloc, words, &mut input, &mut out, disks);
    let mut writer = out.into_inner();
    let flushed = writer.flush().is_ok();
    (Ended { end, flushed }, writer)
}

/// Runs the script over standard input and output, and disks in memory.
fn run(rt: &HostRuntime, words: &[String]) -> Result<Ended, NoMemory>
    ensures words { IfOk result (λ ended. 0 < length words.now → ended.end.kind ≡ CellKind.Words 1) }
    ensures word_cause { IfOk result (λ ended. (place : ℕ) → ended.end.kind ≡ CellKind.Words place → 0 < length words.now) }
    ensures status { IfOk result (λ ended. ended.end.status ≡ status_of ended.end.kind) }
{
    let alloc = rt.alloc();
    let mut disks = fresh_disks(alloc)?;
    let Ok(reader) = BufReader::new(alloc, rt.reader()) else {
        return Err(NoMemory);
    };
    let Ok(writer) = BufWriter::new(alloc, io::writer(rt)) else {
        return Err(NoMemory);
    };
    let (ended, _writer) = run_buffered(alloc, words, reader, writer, &mut disks);
    Ok(ended)
}

/// The exit status. A trace that did not go out whole is a write fault, whatever the end of its script.
fn exit_status(ended: Ended) -> u8
    ensures whole { IsTrue ended.flushed → result ≡ ended.end.status }
    ensures cut_off { ¬ IsTrue ended.flushed → result ≡ 3 }
{
    if ended.flushed {
        ended.end.status
    } else {
        CellKind::WriteFault.status()
    }
}

/// The words behind the name of the program, which is the first of these.
fn behind_name(alloc: Global, mut args: Args) -> Result<Vec<String>, NoMemory>
    ensures { IfOk result (λ words. words.items ≡ drop 1 (into_iter_items args)) }
{
    let _name = args.next();
    let mut words = Vec::new(alloc);
    for word in args {
        words.push(word)?;
    }
    Ok(words)
}

/// The text for which a word that stands alone asks.
fn text_of(word: &str) -> Option<&'static str>
    ensures { option_copied result ≡ text_of_word word.now }
{
    match word {
        "--help" => Some(HELP),
        "--version" => Some(VERSION),
        _ => None,
    }
}

/// The text for which the words ask.
fn asked_text(words: &[String]) -> Option<&'static str>
    ensures { option_copied result ≡ text_for (map string_bytes words.now) }
{
    match words {
        [word] => text_of(word.as_str()),
        _ => None,
    }
}

/// Writes the text that the words ask for, where they ask for one, and gives the exit status.
fn answer<K: Sink>(words: &[String], out: &mut K) -> Option<u8>
    ensures script { text_for (map string_bytes words.now) ≡ None → (result ≡ None) × (out.new ≡ out.old) }
    ensures status { IsSome (text_for (map string_bytes words.now)) → (result ≡ Some 0) ⊎ (result ≡ Some 3) }
    ensures whole { IfSome (text_for (map string_bytes words.now)) (λ text. IfSome (K.written out.old) (λ before.
        result ≡ Some 0 → K.written out.new ≡ Some (before ++ text))) }
    ensures cut_off { IfSome (text_for (map string_bytes words.now)) (λ text. IfSome (K.written out.old) (λ before.
        result ≡ Some 3 → AppendsPart before (K.written out.new) text)) }
    ensures cause { HasCause (K.faults out.old) (K.faults out.new) (result ≡ Some 3) }
{
    let text = asked_text(words)?;
    let kind = match write_whole(out, text.as_bytes()) {
        Ok(()) => CellKind::Done,
        Err(_) => CellKind::WriteFault,
    };
    Some(kind.status())
}

/// The exit status of the program, which is given these words and its name before them. A word that is not UTF-8
/// is invalid data.
fn status(rt: &HostRuntime, given: io::Result<Args>) -> u8
    // A word is status 6, but for the one that asks for a text; memory may run out, and the last flush fail.
    ensures words { IfOk given (λ args. text_for (map string_bytes (drop 1 (into_iter_items args))) ≡ None →
        1 < length (into_iter_items args) → (result ≡ 6) ⊎ (result ≡ 5) ⊎ (result ≡ 3)) }
    ensures asked { IfOk given (λ args. IsSome (text_for (map string_bytes (drop 1 (into_iter_items args)))) →
        (result ≡ 0) ⊎ (result ≡ 5) ⊎ (result ≡ 3)) }
    ensures no_words { IfOk given (λ args. length (into_iter_items args) ≤ 1 → result ≢ 6) }
    ensures not_text { IfErr given (λ error. error_kind error ≡ ErrorKind.InvalidData → result ≡ 6) }
    ensures no_memory { IfErr given (λ error. error_kind error ≢ ErrorKind.InvalidData → result ≡ 5) }
{
    let args = match given {
        Ok(args) => args,
        Err(error) if error.kind() == ErrorKind::InvalidData => {
            return CellKind::Words { place: 1 }.status();
        }
        Err(_) => return CellKind::NoMemory.status(),
    };
    let Ok(words) = behind_name(rt.alloc(), args) else {
        return CellKind::NoMemory.status();
    };
    if let Some(status) = answer(&words, &mut WriterSink::new(io::writer(rt))) {
        return status;
    }
    match run(rt, &words) {
        Ok(ended) => exit_status(ended),
        Err(NoMemory) => CellKind::NoMemory.status(),
    }
}

/// What standard error has for an exit status: nothing at 0, nor where the trace tells it.
fn message_of(status: u8) -> Option<&'static str>
    ensures text { option_copied result ≡ message status }
    ensures none { status ≤ 6 → IsNone result ↔ ((status ≡ 0) ⊎ (status ≡ 1) ⊎ (status ≡ 4)) }
{
    match status {
        2 => Some(NO_INPUT),
        3 => Some(NO_OUTPUT),
        5 => Some(NO_MEMORY),
        6 => Some(NO_WORDS),
        _ => None,
    }
}

/// Tells what there is to say of an exit status. A sink that fails changes nothing else.
fn explain<K: Sink>(status: u8, errors: &mut K)
    ensures silent { message status ≡ None → errors.new ≡ errors.old }
    ensures told { IfSome (message status) (λ line. IfSome (K.written errors.old) (λ before.
        K.faults errors.new ≡ K.faults errors.old → K.written errors.new ≡ Some (before ++ line))) }
{
    if let Some(line) = message_of(status) {
        let _ = write_whole(errors, line.as_bytes());
    }
}

fn main(rt: HostRuntime) -> ExitCode {
    let status = status(&rt, env::args(&rt));
    explain(status, &mut WriterSink::new(rt.stderr()));
    ExitCode::from(status)
}
