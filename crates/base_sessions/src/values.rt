//! Cells with their sets of servers, and versions.
ghost use Rattle.std.specs.Prelude.{◌≡◌, ◌||◌, if◌then◌else◌};
ghost use Rattle.ubik_types.specs.Version.{version_lt, version_eq};

use crate::words::{truth_word, version_in, word_text};
use session_rows::{Fault, number_in};
use std::alloc::Global;
use ubik_types::{Cell, CellFault, Host, MAXSERVERS, Marks, Version, majority, vote_quorum};

/// What is found where a row is `cell HOST ..`, `place HOST of HOST ..`, `set SERVERS of HOST ..` or `order VERSION VERSION`.
pub fn found_value(alloc: Global, words: &[&str]) -> Result<String, Fault> {
    match words {
        ["cell", hosts @ ..] => match cell_of(alloc, hosts)? {
            Ok(cell) => cell_text(alloc, &cell),
            Err(fault) => Ok(format!(in alloc; "{fault}")?),
        },
        ["place", host, "of", hosts @ ..] => place_text(alloc, host, hosts),
        ["set", marks, "of", hosts @ ..] => quorum_text(alloc, marks, hosts),
        ["order", a, b] => word_text(alloc, order_word(version_in(a)?, version_in(b)?)),
        _ => Err(Fault::Form),
    }
}

/// At which place of the cell of these hosts a host stands.
fn place_text(alloc: Global, host: &str, hosts: &[&str]) -> Result<String, Fault> {
    let host = Host(number_in(host)?);
    let cell = cell_of(alloc, hosts)?.map_err(|_| Fault::Form)?;
    match cell.index(host) {
        Some(place) => Ok(format!(in alloc; "{place}")?),
        None => word_text(alloc, "none"),
    }
}

/// Whether a set of the servers of the cell of these hosts is a quorum of votes, and whether it is a majority.
fn quorum_text(alloc: Global, marks: &str, hosts: &[&str]) -> Result<String, Fault> {
    let marks = marks_in(marks);
    let cell = cell_of(alloc, hosts)?.map_err(|_| Fault::Form)?;
    let quorum = truth_word(vote_quorum(&cell, &marks));
    let majority = truth_word(majority(&cell, &marks));
    Ok(format!(in alloc; "{quorum} {majority}")?)
}

/// The cell of these hosts, or why they make none.
fn cell_of(alloc: Global, words: &[&str]) -> Result<Result<Cell, CellFault>, Fault> {
    let mut hosts = Vec::new(alloc);
    for word in words {
        hosts.push(Host(number_in(word)?))?;
    }
    Ok(Cell::new(alloc, &hosts))
}

/// The hosts of a cell by their places.
fn cell_text(alloc: Global, cell: &Cell) -> Result<String, Fault> {
    let mut text = String::new(alloc);
    for place in 0..cell.len() {
        if place > 0 {
            text.push_str(" ")?;
        }
        let host = cell.host(place).0;
        text.push_str(format!(in alloc; "{host}")?.as_str())?;
    }
    Ok(text)
}

/// The set of the servers at whose places a 1 stands.
fn marks_in(word: &str) -> Marks {
    let mut set = [false; MAXSERVERS];
    for (marked, digit) in set.iter_mut().zip(word.as_bytes()) {
        *marked = *digit == b'1';
    }
    Marks { set }
}

// What a caller has of a comparison of two versions.

fn is_before(a: Version, b: Version) -> bool
    ensures { result ≡ version_lt a b }
{
    a < b
}

fn is_not_after(a: Version, b: Version) -> bool
    ensures { result ≡ (version_lt a b || version_eq a b) }
{
    a <= b
}

fn is_same(a: Version, b: Version) -> bool
    ensures { result ≡ version_eq a b }
{
    a == b
}

fn later(a: Version, b: Version) -> Version
    ensures { result ≡ (if version_lt a b then b else a) }
{
    if a < b { b } else { a }
}

/// Which of two versions comes first.
fn order_word(a: Version, b: Version) -> &'static str {
    let last = later(a, b);
    match (is_before(a, b), is_not_after(a, b), is_same(a, b)) {
        (true, true, false) if is_same(last, b) => "before",
        (false, true, true) if is_same(last, a) => "same",
        (false, false, false) if is_same(last, a) => "after",
        _ => "in no order",
    }
}
