//! Where the values of a call come from: its bytes, or its words.
ghost use Rattle.call_grammar.specs.Items.{Count, Number, Signed, Text, Truth};
ghost use Rattle.call_grammar.specs.Reading.{ItemsOf, Reads};

use crate::faults::NoValue;

/// Gives one item after the other, and takes no memory.
pub trait Source<'a> {
    /// The item that stands there, and what is behind it.
    ghost item_at: { ItemsOf Self };

    fn number(&mut self) -> Result<u32, NoValue>
        ensures { Reads (λ n. n) self.new result (item_at Number self.old) };

    fn signed(&mut self) -> Result<i32, NoValue>
        ensures { Reads (λ z. z) self.new result (item_at Signed self.old) };

    fn truth(&mut self) -> Result<bool, NoValue>
        ensures { Reads (λ b. b) self.new result (item_at Truth self.old) };

    /// A string of at most [`crate::MAX_TEXT`] bytes.
    fn text(&mut self) -> Result<&'a [u8], NoValue>
        ensures { Reads (λ text. text.now) self.new result (item_at Text self.old) };

    /// How many items of a list follow, at most so many.
    fn count(&mut self, most: u32) -> Result<u32, NoValue>
        ensures { Reads (λ n. n) self.new result (item_at (Count most) self.old) };
}
