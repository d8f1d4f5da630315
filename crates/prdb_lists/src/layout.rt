//! Where the parts of an image lie that tell its pairs.

/// Where the first continuation block is named in an entry's block.
pub(crate) const FIRST_MORE_AT: usize = 28;

/// Where the first ids stand in an entry's block.
pub(crate) const FIRST_IDS_AT: usize = 112;

/// How many ids stand in an entry's block.
pub(crate) const FIRST_IDS: usize = 19;

/// Where the entry's id stands in a continuation block.
pub(crate) const MORE_ENTRY_AT: usize = 4;

/// Where the next continuation block is named in a continuation block.
pub(crate) const NEXT_AT: usize = 8;

/// Where the ids stand in a continuation block.
pub(crate) const MORE_IDS_AT: usize = 12;

/// How many ids stand in a continuation block.
pub(crate) const MORE_IDS: usize = 44;

/// How many ids a word can count.
pub(crate) const MAX_IDS: usize = 4_294_967_295;
