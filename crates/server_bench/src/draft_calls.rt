//! Makes a call of a database over an image again and again, each time over a draft of its own. What the call changes is dropped with it.
ghost use Rattle.std.specs.Prelude.{◌≡◌, ◌<◌, ◌≤◌, ◌^◌, IfOk, Some, length, map};
ghost use Rattle.std.specs.String.{string_bytes};
ghost use Rattle.ubik_types.specs.declared.limits.TheConstants.{MAX_IMAGE};

use db_image::{CallEnd, DraftWords, ImageRead, ReadEnd};
use std::alloc::Global;
use std::fmt;
use ubik_types::{Bytes, MAX_IMAGE, NoMemory, bytes_of};

/// The moment of each call.
const MOMENT: u32 = 1076;

/// A call in words, and how often it is made.
#[derive(Clone, Copy)]
pub struct Plan<'a> {
    pub times: u32,
    pub call: &'a [String],
}

impl fmt::Display for Plan<'_> {
    fn fmt<W: fmt::Write>(&self, f: &mut fmt::Formatter<W>) -> fmt::Result {
        let (name, times) = (self.call.first().map_or("", String::as_str), self.times);
        write!(f, "{name}: calls done {times}")
    }
}

/// The bytes of the call that words name; none where they name none.
fn call_of<S: DraftWords>(alloc: Global, words: &[String]) -> Result<Option<Bytes>, NoMemory>
    ensures { IfOk result (λ call. call ≡ S.words.call_of (map string_bytes words.now)) }
{
    let mut given = Vec::new(alloc);
    for word in words {
        given.push(bytes_of(alloc, word.as_bytes())?)?;
    }
    S::call_words(alloc, &given)
}

/// An image in memory that is lent.
#[derive(Drop)]
struct LentImage<'a> {
    bytes: &'a [u8],
    ghost bound: { length bytes.now < 2 ^ 32 },
}

impl<'a> ImageRead for LentImage<'a> {
    ghost use Rattle.std.specs.Prelude.{None};

    ghost held = { λ image. Some image.bytes.now };

    ghost size = { λ image. length image.bytes.now };

    ghost faults = { λ _. 0 };

    ghost asked = { λ _. None };

    ghost came = { λ _ _. Unit {0} };

    ghost comes_same = { λ _. tt };

    ghost comes_on = { λ _ _ _ _ _. tt };

    fn len(&self) -> u32 {
        self.bytes.len() as u32
    }

    fn read(&mut self, at: u32, buf: &mut [u8]) -> ReadEnd {
        let at = at as usize;
        buf.copy_from_slice(&self.bytes[at..at + buf.len()]);
        ReadEnd::Done
    }
}

/// Makes a call over a draft of an image; whether it took place.
fn takes_place<S: DraftWords>(alloc: Global, image: &[u8], call: &[u8]) -> bool
    requires { length image.now ≤ MAX_IMAGE }
{
    let mut draft = S::draft(alloc, LentImage { bytes: image });
    match S::call(alloc, &mut draft, MOMENT, call) {
        CallEnd::Done(_) => true,
        _ => false,
    }
}

/// Makes a call so many times over an image; whether it took place each time.
pub fn is_done<S: DraftWords>(
    alloc: Global,
    image: &[u8],
    plan: Plan<'_>,
) -> Result<bool, NoMemory> {
    let Some(call) = call_of::<S>(alloc, plan.call)? else {
        return Ok(false);
    };
    if image.len() > MAX_IMAGE {
        return Ok(false);
    }
    for _ in 0..plan.times {
        if !takes_place::<S>(alloc, image, call.as_slice()) {
            return Ok(false);
        }
    }
    Ok(true)
}
