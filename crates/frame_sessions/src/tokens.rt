//! Texts made of words and values, and bytes in quotes.
use session_rows::Fault;
use std::alloc::Global;
use std::{fmt, str};
use ubik_types::{Host, Version, WORD_LEN};

/// A value in a text.
#[derive(Clone, Copy)]
pub enum Token<'a> {
    Nothing,
    Word(&'static str),
    Number(u32),
    Signed(i32),
    Long(u64),
    Place(usize),
    Truth(bool),
    Host(Host),
    Version(Version),
    /// Two digits a byte, with a blank behind each word.
    Digits(&'a [u8]),
    /// Text in quotes where the bytes are that, and else digits.
    Quoted(&'a [u8]),
}

/// Words of a text, and the value behind them.
pub type Part<'a> = (&'static str, Token<'a>);

/// Nothing of a text.
pub const NO_PART: Part<'static> = ("", Token::Nothing);

impl fmt::Display for Token<'_> {
    fn fmt<W: fmt::Write>(&self, f: &mut fmt::Formatter<W>) -> fmt::Result {
        match *self {
            Token::Nothing => Ok(()),
            Token::Word(word) => f.write_str(word),
            Token::Number(number) => write!(f, "{number}"),
            Token::Signed(number) => write!(f, "{number}"),
            Token::Long(number) => write!(f, "{number}"),
            Token::Place(place) => write!(f, "{place}"),
            Token::Truth(true) => f.write_str("yes"),
            Token::Truth(false) => f.write_str("no"),
            Token::Host(host) => write!(f, "{host}"),
            Token::Version(Version { epoch, counter }) => write!(f, "{epoch}.{counter}"),
            Token::Digits(bytes) => write_digits(f, bytes),
            Token::Quoted(bytes) => match str::from_utf8(bytes) {
                Ok(text) if text.chars().all(is_shown) => write!(f, "\"{text}\""),
                _ => write_digits(f, bytes),
            },
        }
    }
}

fn is_shown(letter: char) -> bool {
    letter == ' ' || letter.is_ascii_graphic()
}

fn write_digits<W: fmt::Write>(f: &mut fmt::Formatter<W>, bytes: &[u8]) -> fmt::Result {
    for (i, byte) in bytes.iter().enumerate() {
        if i > 0 && i % WORD_LEN == 0 {
            f.write_str(" ")?;
        }
        write!(f, "{byte:02x}")?;
    }
    Ok(())
}

/// The text of these parts.
pub fn text_of(alloc: Global, parts: &[Part]) -> Result<String, Fault> {
    let mut text = String::new(alloc);
    for (word, value) in parts {
        write!(text, "{word}{value}")?;
    }
    Ok(text)
}

/// The bytes of a text in quotes, in which `\t` is a tab and `\n` ends a line. `Fault::Form` where it has no quotes, or another letter stands
/// behind a `\`.
pub fn unquoted(alloc: Global, text: &str) -> Result<Vec<u8>, Fault> {
    let [b'"', inner @ .., b'"'] = text.as_bytes() else {
        return Err(Fault::Form);
    };
    let mut bytes = Vec::new(alloc);
    let mut is_escaped = false;
    for byte in inner {
        let meant = match (is_escaped, *byte) {
            (false, b'\\') => {
                is_escaped = true;
                continue;
            }
            (false, byte) => byte,
            (true, b't') => b'\t',
            (true, b'n') => b'\n',
            (true, _) => return Err(Fault::Form),
        };
        bytes.push(meant)?;
        is_escaped = false;
    }
    if is_escaped {
        return Err(Fault::Form);
    }
    Ok(bytes)
}
