//! Which of several names a word means.
ghost use Rattle.std.specs.Prelude.{◌≡◌, ◌<◌, ℕ, nat_eq, length, List, position, count_by};
ghost use Rattle.std.specs.List.{starts_with};
ghost use Rattle.std.specs.Str.{bytes_eq};
ghost use Rattle.afs_words.specs.Matching.{meant_in};
ghost use Rattle.afs_words.specs.declared.matching.Meant.TheVariants.{Item};

/// What has a name.
pub trait Named {
    ghost named: { Self → List ℕ };

    /// The whole name.
    fn name(&self) -> &'static str
        ensures { result.now ≡ named self.now };
}

/// What a word means among names.
#[derive(Clone, Copy, Debug, PartialEq, Eq)]
pub enum Meant {
    /// It begins none of the names.
    Unknown,
    /// It begins more than one of them, and is none.
    Ambiguous,
    /// The name at this place: it is that name, or begins that one alone.
    Item(usize),
}

/// The first item with this name.
fn whole_place<N: Named>(items: &[N], word: &[u8]) -> Option<usize>
    ensures { result ≡ position (λ item. bytes_eq (N.named item) word.now) items.now }
{
    items.iter().position(|item| item.name().as_bytes() == word)
}

/// The first item whose name the word begins.
fn cut_place<N: Named>(items: &[N], word: &[u8]) -> Option<usize>
    ensures { result ≡ position (λ item. starts_with nat_eq (N.named item) word.now) items.now }
{
    items
        .iter()
        .position(|item| item.name().as_bytes().starts_with(word))
}

/// How many names the word begins.
fn cut_count<N: Named>(items: &[N], word: &[u8]) -> usize
    ensures { result ≡ count_by (λ item. starts_with nat_eq (N.named item) word.now) items.now }
{
    items
        .iter()
        .filter(|item| item.name().as_bytes().starts_with(word))
        .count()
}

/// What a word means among the names of these items.
pub fn find_named<N: Named>(items: &[N], word: &[u8]) -> Meant
    ensures meaning { result ≡ meant_in N.named items.now word.now }
    ensures bound { (place : ℕ) → result ≡ Item place → place < length items.now }
{
    if let Some(place) = whole_place(items, word) {
        return Meant::Item(place);
    }
    match cut_place(items, word) {
        None => Meant::Unknown,
        Some(place) if cut_count(items, word) == 1 => Meant::Item(place),
        Some(_) => Meant::Ambiguous,
    }
}
