//! The words of an answer behind a line of a trace.
ghost use Rattle.std.specs.Prelude.{◌≡◌, ◌++◌, ◌∷◌, true, OnOk, nat_lt};
ghost use Rattle.std.specs.List.{flat_map, list_all};
ghost use Rattle.std.specs.String.{string_bytes};
ghost use Rattle.call_grammar.specs.Shown.{shown};

use ubik_types::NoMemory;

/// Whether each byte is an ASCII one.
fn is_ascii(bytes: &[u8]) -> bool
    ensures { result ≡ list_all (λ b. nat_lt b 128) bytes.now }
{
    bytes.iter().all(|b| *b < 128)
}

/// A law, by a call that does nothing: bytes are below 256, as those of a call are.
pub fn bytes_fit(bytes: &[u8])
    ensures { list_all (λ b. nat_lt b 256) bytes.now ≡ true }
{}

/// Adds ASCII bytes.
fn push_ascii(text: &mut String, bytes: &[u8]) -> Result<(), NoMemory>
    requires { list_all (λ b. nat_lt b 128) bytes.now ≡ true }
    ensures { OnOk result (string_bytes text.new ≡ string_bytes text.old ++ bytes.now) }
{
    for byte in bytes {
        text.push(char::from(*byte))?;
    }
    Ok(())
}

/// Adds the words of an answer behind a blank; nothing where there are none, or where a byte of them is no ASCII one.
pub fn push_words(text: &mut String, words: &[u8]) -> Result<(), NoMemory>
    ensures { OnOk result (string_bytes text.new ≡ string_bytes text.old ++ flat_map (λ word. 32 ∷ word) (shown words.now)) }
{
    if words.is_empty() || !is_ascii(words) {
        return Ok(());
    }
    text.push(' ')?;
    push_ascii(text, words)
}
