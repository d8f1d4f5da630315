//! The hosts among the words of a program, and words that older scripts have.
ghost use Rattle.std.specs.Prelude.{◌≡◌, ◌<◌, suc, IfOk, OnOk, IfSome, length, slice_get, string_bytes, vec_len};
ghost use Rattle.cell_hosts.specs.Words.{hosts_place, only_hosts, hosts_behind, without_two, hosts_of, words_left, is_ignored, has_word, refused_word, kept_words};

use crate::faults::HostsFault;
use std::alloc::Global;
use ubik_types::NoMemory;

/// Where `-hosts` stands first.
fn hosts_place(words: &[String]) -> Option<usize>
    ensures place { result ≡ hosts_place string_bytes words.now }
    ensures bound { IfSome result (λ i. i < length words.now) }
{
    words.iter().position(|word| word.as_str() == "-hosts")
}

/// Whether a word stands among these.
fn has_word(words: &[String], wanted: &str) -> bool
    ensures { result ≡ has_word string_bytes words.now wanted.now }
{
    words.iter().any(|word| word.as_str() == wanted)
}

/// Gives these hosts, where no others stand among the words.
fn only_hosts(words: &[String], hosts: String) -> Result<Option<String>, HostsFault>
    ensures { result ≡ only_hosts (hosts_place string_bytes words.now) hosts }
{
    match hosts_place(words) {
        None => Ok(Some(hosts)),
        Some(_) => Err(HostsFault::HostsTwice),
    }
}

/// Takes the two words from a place on away, of which the first is `-hosts`, and gives the second.
fn take_at(words: &mut Vec<String>, place: usize) -> Result<Option<String>, HostsFault>
    requires { place < vec_len words.old }
    ensures hosts { result ≡ hosts_behind string_bytes words.old.items place (slice_get words.old.items (suc place)) }
    ensures left { OnOk result (words.new.items ≡ without_two words.old.items place) }
{
    let _switch = words.remove(place);
    if words.len() <= place {
        return Err(HostsFault::MissingHosts);
    }
    let hosts = words.remove(place);
    only_hosts(words, hosts)
}

/// Takes `-hosts` and the word behind it away, wherever they stand, and gives that word. After an error the words say
/// nothing.
pub fn take_hosts(words: &mut Vec<String>) -> Result<Option<String>, HostsFault>
    ensures hosts { result ≡ hosts_of string_bytes words.old.items }
    ensures left { OnOk result (words.new.items ≡ words_left string_bytes words.old.items) }
{
    match hosts_place(words) {
        None => Ok(None),
        Some(place) => take_at(words, place),
    }
}

/// Refuses the words that name a cell in another way.
pub fn refuse_cells(words: &[String]) -> Result<(), HostsFault>
    ensures { result ≡ refused_word string_bytes words.now }
{
    if has_word(words, "-cell") {
        Err(HostsFault::Cell)
    } else if has_word(words, "-config") {
        Err(HostsFault::Config)
    } else {
        Ok(())
    }
}

/// Whether a word asks for what there is not, or always is: encryption, and addresses as numbers.
fn is_ignored(word: &str) -> bool
    ensures { result ≡ is_ignored word.now }
{
    word == "-encrypt" || word == "-noresolve"
}

/// The words without those that are ignored.
pub fn without_ignored(alloc: Global, words: Vec<String>) -> Result<Vec<String>, NoMemory>
    ensures { IfOk result (λ kept. kept.items ≡ kept_words string_bytes words.items) }
{
    let kept = words
        .into_iter()
        .filter(|word| !is_ignored(word.as_str()))
        .collect(alloc)?;
    Ok(kept)
}
