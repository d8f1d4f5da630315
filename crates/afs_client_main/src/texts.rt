//! What the program prints of itself.
ghost use Rattle.std.specs.Prelude.{◌≡◌, map, string_bytes, option_copied};
ghost use Rattle.afs_client_main.specs.Texts.{message, text_for, text_of_word};

/// What `--help` prints.
pub const HELP: &str = "\
afs_client runs a command of vos, pts or udebug over the net.

  afs_client HOSTS vos WORDS
  afs_client HOSTS pts WORDS
  afs_client HOSTS udebug vlserver|ptserver

HOSTS are 1 to 20 dotted addresses, joined by commas; each call is asked of them
in this order. vos asks the location database, at port 7003, and pts the
protection database, at port 7002. WORDS of help lists the operations, and
help OPERATION says how one is typed; docs/FORMATS.md has the words of both.
udebug asks each host what its server of that kind says of itself.
One word alone: --help prints this, --version the version.

Exit statuses:
  0  the command is done
  1  it is refused, as standard error says
  2  the words mean nothing, as standard error says
  3  no host took a call, or answered udebug
  4  standard output or standard error failed
  5  memory ran out
  6  a call that writes may have taken place, and no answer says so
";

/// What `--version` prints.
pub const VERSION: &str = "afs_client 0.1.0\n";

pub const NO_OUTPUT: &str = "afs_client: standard output failed\n";

pub const NO_MEMORY: &str = "afs_client: memory ran out\n";

pub const NO_TEXT: &str = "afs_client: a word is no text\n";

/// The text for which a word that stands alone asks.
fn text_of(word: &str) -> Option<&'static str>
    ensures { option_copied result ≡ text_of_word word.now }
{
    match word {
        "--help" => Some(HELP),
        "--version" => Some(VERSION),
        _ => None,
    }
}

/// The text for which the words ask.
pub fn asked_text(words: &[String]) -> Option<&'static str>
    ensures { option_copied result ≡ text_for (map string_bytes words.now) }
{
    match words {
        [word] => text_of(word.as_str()),
        _ => None,
    }
}

/// What standard error has for an exit status that no line says.
pub fn message_of(status: u8) -> Option<&'static str>
    ensures { option_copied result ≡ message status }
{
    match status {
        4 => Some(NO_OUTPUT),
        5 => Some(NO_MEMORY),
        _ => None,
    }
}
