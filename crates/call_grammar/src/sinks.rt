//! Where values are written: as bytes, or as words.
ghost use Rattle.std.specs.Prelude.{◌≡◌, ◌<◌, ◌^◌, ◌++◌, ℕ, List, length, OnOk};
ghost use Rattle.std.specs.List.{AllByRecursion};
ghost use Rattle.call_grammar.specs.Items.{IsText, Number, Signed, Text, Truth};
ghost use Rattle.call_grammar.specs.Lists.{TextsOf, listed};

use ubik_types::NoMemory;

/// Takes one item after the other. After an `Err` a part of the item may stand at the end.
pub trait Sink {
    /// How an item is written.
    ghost text_of: { TextsOf };

    /// What has been written.
    ghost written: { Self → List ℕ };

    fn number(&mut self, n: u32) -> Result<(), NoMemory>
        ensures { OnOk result (written self.new ≡ written self.old ++ text_of Number n) };

    fn signed(&mut self, z: i32) -> Result<(), NoMemory>
        ensures { OnOk result (written self.new ≡ written self.old ++ text_of Signed z) };

    fn truth(&mut self, b: bool) -> Result<(), NoMemory>
        ensures { OnOk result (written self.new ≡ written self.old ++ text_of Truth b) };

    fn text(&mut self, text: &[u8]) -> Result<(), NoMemory>
        requires { IsText text.now }
        ensures { OnOk result (written self.new ≡ written self.old ++ text_of Text text.now) };
}

/// How a value of a type is written.
pub trait Telling<W: Sink, T> {
    /// Its text.
    ghost text: { T → List ℕ };

    /// Whether it has one.
    ghost HasText: { T → Type 0 };

    fn write(out: &mut W, value: &T) -> Result<(), NoMemory>
        requires { HasText value.now }
        ensures { OnOk result (W.written out.new ≡ W.written out.old ++ text value.now) };
}

/// Writes a list: its length, and its items.
pub fn write_list<W: Sink, T, F: Telling<W, T>>(out: &mut W, items: &[T]) -> Result<(), NoMemory>
    requires count { length items.now < 2 ^ 32 }
    requires each { AllByRecursion F.HasText items.now }
    ensures { OnOk result (W.written out.new ≡ W.written out.old ++ listed W.text_of F.text items.now) }
{
    out.number(items.len() as u32)?;
    for item in items {
        F::write(out, item)?;
    }
    Ok(())
}
