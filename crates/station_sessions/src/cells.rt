//! A script, run over a cell of three stations.
ghost use Rattle.std.specs.Prelude.{◌≡◌, IfOk};
ghost use Rattle.ubik_types.specs.Moment.{IsMoment};
ghost use Rattle.disk_base.specs.Crash.{IsSettled};

use crate::faults::Fault;
use crate::lines::Cell;
use crate::servers::{Server, Servers};
use crate::wires::Wire;
use cell_script::{Kind, Line, line_meaning};
use db_image::DraftWords;
use disk_base::{Disk, MemDisk, StopDisk};
use pt_database::PtService;
use server_station::Opening;
use std::alloc::Global;
use std::marker::Brand;
use std::sync::ledger::Blank;
use ubik_types::MAX_MOMENT;
use vl_database::VlService;

/// What is seen of a script, whose first line opens a cell of three: its packets and its replies, a line each.
pub fn seen_of(alloc: Global, script: &[u8]) -> Result<String, Fault> {
    let (head, lines) = split_line(script);
    match line_meaning(alloc, head)? {
        Ok(
            Line::Cell {
                servers: 3,
                clock,
                kind,
            },
        ) if clock > 0 && clock <= MAX_MOMENT => match kind {
            Kind::Location => run::<VlService>(alloc, clock, lines),
            Kind::Protection => run::<PtService>(alloc, clock, lines),
        },
        _ => Err(Fault::Line),
    }
}

/// The first line of a text, and what stands behind its LF.
fn split_line(text: &[u8]) -> (&[u8], &[u8]) {
    match text.iter().position(|byte| *byte == b'\n') {
        Some(at) if at < text.len() => (&text[..at], &text[at + 1..]),
        _ => (text, &[]),
    }
}

/// Runs lines over a cell that keeps a database of this kind, opened at a clock.
fn run<V: DraftWords>(alloc: Global, clock: u32, lines: &[u8]) -> Result<String, Fault>
    requires { IsMoment clock }
{
    run_as::<V, Brand, Brand, Brand>(
        alloc,
        Blank::new(7),
        Blank::new(7),
        Blank::new(7),
        clock,
        lines,
    )
}

/// Runs lines over stations that are named by these blanks.
fn run_as<V: DraftWords, A: Opening, B: Opening, C: Opening>(
    alloc: Global,
    first: Blank,
    second: Blank,
    third: Blank,
    clock: u32,
    lines: &[u8],
) -> Result<String, Fault>
    requires first { (first.name ≡ A.name) × (first.parts ≡ A.parts) × (A.all ≡ A.parts) × (A.all ≡ 7) }
    requires second { (second.name ≡ B.name) × (second.parts ≡ B.parts) × (B.all ≡ B.parts) × (B.all ≡ 7) }
    requires third { (third.name ≡ C.name) × (third.parts ≡ C.parts) × (C.all ≡ C.parts) × (C.all ≡ 7) }
    requires moment { IsMoment clock }
{
    let first = open::<MemDisk, V, A>(alloc, first, 0, MemDisk::new(alloc, &[])?, clock)?;
    let second = open::<MemDisk, V, B>(alloc, second, 1, MemDisk::new(alloc, &[])?, clock)?;
    let third = open::<MemDisk, V, C>(alloc, third, 2, MemDisk::new(alloc, &[])?, clock)?;
    let servers = Servers {
        first,
        second,
        third,
    };
    let wire = Wire::new(alloc);
    run_lines(alloc, Cell { servers, wire }, lines)
}

/// Opens the server at a place of the cell over a disk that is opened anew, so that nothing is pending on it.
fn open<D: StopDisk + Drop, V: DraftWords, L: Opening>(
    alloc: Global,
    blank: Blank,
    me: usize,
    disk: D,
    clock: u32,
) -> Result<Server<D, V, L>, Fault>
    requires name { blank.name ≡ L.name }
    requires parts { (blank.parts ≡ L.parts) × (L.all ≡ L.parts) × (L.all ≡ 7) }
    requires moment { IsMoment clock }
{
    let mut disk = disk;
    disk.revive();
    Server::open(alloc, blank, me, disk, clock)
}

/// Runs the lines of a script; what was seen.
fn run_lines<D: Disk + Drop, V: DraftWords, A: Opening, B: Opening, C: Opening>(
    alloc: Global,
    mut cell: Cell<D, V, A, B, C>,
    lines: &[u8],
) -> Result<String, Fault>
    requires { (A.all ≡ A.parts) × (B.all ≡ B.parts) × (C.all ≡ C.parts) }
{
    for line in lines.split(|byte| *byte == b'\n') {
        let Ok(line) = line_meaning(alloc, line)? else {
            return Err(Fault::Line);
        };
        cell.run(line)?;
    }
    Ok(cell.into_text())
}
