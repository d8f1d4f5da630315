//! What is read from items: values of one form, and lists of them.
ghost use Rattle.std.specs.Prelude.{Option};
ghost use Rattle.call_grammar.specs.Reading.{Gives, Skips, list_at, rest_of};

use crate::faults::{NoValue, NotRead};
use crate::lists::Items;
use crate::sources::Source;
use std::alloc::Global;

/// How a value of a type is read.
pub trait Form<'a, S: Source<'a>, T> {
    /// The value that stands there, and what is behind it.
    ghost value_at: { S → Option (T × S) };

    fn read(alloc: Global, from: &mut S) -> Result<T, NotRead>
        ensures { Gives (λ x. x) from.new result (value_at from.old) };
}

/// How a value of a type is passed over, without taking memory.
pub trait SkipForm<'a, S: Source<'a>, T> {
    /// The value that stands there, and what is behind it.
    ghost value_at: { S → Option (T × S) };

    fn skip(from: &mut S) -> Result<(), NoValue>
        ensures { Skips from.new result (rest_of (value_at from.old)) };
}

/// A list of at most so many.
pub fn read_list<'a, S: Source<'a>, T: Drop, F: Form<'a, S, T>>(
    alloc: Global,
    from: &mut S,
    most: u32,
) -> Result<Items<T>, NotRead>
    ensures { Gives (λ xs. xs) from.new result (list_at S.item_at most F.value_at from.old) }
{
    let count = from.count(most)?;
    let mut items = Vec::new(alloc);
    for _ in 0..count {
        let item = F::read(alloc, from)?;
        items.push(item)?;
    }
    Ok(Items::new(items))
}

/// Passes over a list of at most so many, without taking memory.
pub fn skip_list<'a, S: Source<'a>, T, F: SkipForm<'a, S, T>>(
    from: &mut S,
    most: u32,
) -> Result<(), NoValue>
    ensures { Skips from.new result (rest_of (list_at S.item_at most F.value_at from.old)) }
{
    let count = from.count(most)?;
    for _ in 0..count {
        F::skip(from)?;
    }
    Ok(())
}
