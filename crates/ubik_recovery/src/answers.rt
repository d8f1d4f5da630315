//! The versions that the servers of a cell answered to a poll, by their places.
ghost use Rattle.std.specs.Prelude.{◌≡◌, ◌<◌, ◌≤◌, ℕ, Some, None, true, false, length, map, take, is_some};
ghost use Rattle.cell_model.specs.Polls.{best_version, first_with, is_answer, only_at};
ghost use Rattle.ubik_types.specs.declared.limits.TheConstants.{MAXSERVERS};
ghost use Rattle.ubik_types.specs.Version.{zero_version};
ghost use Rattle.ubik_recovery.specs.Record.{later_answer};

use ubik_types::{MAXSERVERS, Version};

/// The greatest answered version; 0.0 where nobody answered.
pub fn best_version(answers: &[Option<Version>]) -> Version
    ensures { result ≡ best_version zero_version answers.now }
{
    let mut best = Version {
        epoch: 0,
        counter: 0,
    };
    for answer in answers {
        best = later_answer(best, *answer);
    }
    best
}

/// The greater of a version and an answered one.
fn later_answer(best: Version, answer: Option<Version>) -> Version
    ensures { result ≡ later_answer best answer }
{
    match answer {
        Some(version) if best < version => version,
        _ => best,
    }
}

/// The lowest server that answered a version; the number of servers where none did.
pub fn first_with(answers: &[Option<Version>], version: Version) -> usize
    ensures { result ≡ first_with version answers.now }
{
    for (i, answer) in answers.iter().enumerate() {
        if is_answer(version, *answer) {
            return i;
        }
    }
    answers.len()
}

fn is_answer(version: Version, answer: Option<Version>) -> bool
    ensures { result ≡ is_answer version answer }
{
    match answer {
        Some(answered) => version == answered,
        None => false,
    }
}

/// The servers that answered.
pub fn answered(answers: &[Option<Version>]) -> [bool; MAXSERVERS]
    requires { length answers.now ≤ MAXSERVERS }
    ensures { take (length answers.now) result ≡ map is_some answers.now }
{
    let mut set = [false; MAXSERVERS];
    for (i, answer) in answers.iter().enumerate() {
        set[i] = answer.is_some();
    }
    set
}

/// The answers where only this server has answered, with its own version.
pub fn only_answer(me: usize, own: Version) -> [Option<Version>; MAXSERVERS]
    requires { me < MAXSERVERS }
    ensures { (n : ℕ) → n ≤ MAXSERVERS → take n result ≡ only_at (Some own) None n me }
{
    let mut answers = [None; MAXSERVERS];
    answers[me] = Some(own);
    answers
}

/// The marks of this server alone.
pub fn only_mark(me: usize) -> [bool; MAXSERVERS]
    requires { me < MAXSERVERS }
    ensures { (n : ℕ) → n ≤ MAXSERVERS → take n result ≡ only_at true false n me }
{
    let mut marks = [false; MAXSERVERS];
    marks[me] = true;
    marks
}
