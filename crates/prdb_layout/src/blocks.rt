//! Where the parts of an image's head and of an entry's block stand.

/// The length of an image's head, in bytes.
pub const HEAD_LEN: u32 = 2112;

/// Where the greatest user id that was given stands in the head.
pub const MAX_USER_AT: usize = 8;

/// Where the number of blocks stands in the head. Behind it are zero bytes, without words of chains.
pub const BLOCK_COUNT_AT: usize = 16;

/// Where the flags stand in an entry's block.
pub const FLAGS_AT: usize = 4;

/// Where the id stands in an entry's block.
pub const ID_AT: usize = 8;

/// Where the owner's id stands in an entry's block.
pub const OWNER_AT: usize = 12;

/// Where the creator's id stands in an entry's block.
pub const CREATOR_AT: usize = 16;

/// Where the quota stands in an entry's block.
pub const QUOTA_AT: usize = 20;

/// Where the number of pairs stands in an entry's block, and behind it the first continuation block.
pub const PAIR_COUNT_AT: usize = 24;

/// Where the name's field begins in an entry's block, which has zero bytes behind it.
pub const NAME_AT: usize = 32;

/// The length of a name's field in a block, in bytes.
pub const NAME_FIELD: usize = 64;

/// Where the words of chains stand in an entry's block; zero bytes stand there in an image without them.
pub const CHAINS_AT: usize = 96;

/// The length of these words, in bytes.
pub const CHAINS_LEN: usize = 16;

/// Where the ids of the first pairs end in an entry's block, which has zero bytes behind them.
pub const END_AT: usize = 188;

/// The id of the entry `anonymous`, for which a call is made that is not signed in.
pub const ANONYMOUS: i32 = 32766;
