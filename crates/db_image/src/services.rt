//! What a database answers, and how its images are cut.
use ubik_types::Bytes;

/// What a database answers to a call.
#[derive(Drop)]
pub enum CallReply {
    /// The call took place; its answer fields.
    Done(Bytes),
    /// Refused by a rule of the database, by its number. Nothing changed.
    Rule(u32),
    /// The bytes are no call.
    Malformed,
    /// The image stands for no state of the database; where that showed, in bytes.
    BadRecord { at: u32 },
}

/// How the images of a database are cut: a head, and blocks of one length behind it. The last of them may be shorter.
#[derive(Clone, Copy)]
pub struct Layout {
    /// The length of the head, in bytes.
    pub head: u32,
    /// The length of a block, in bytes.
    pub block: u32,
}
