//! A database as a server sees it, which reads of an image what it needs.
ghost use Rattle.std.specs.Prelude.{◌≡◌, ◌≢◌, ◌≤◌, ℕ, List, [], Option, Some, IfSome, length, true};
ghost use Rattle.db_image.specs.Draft.{StaysAsItWas};
ghost use Rattle.db_image.specs.Ends.{EndsBy, IsShort, KeepsGrammar, end_of};
ghost use Rattle.db_image.specs.Images.{OnlyReads};
ghost use Rattle.db_image.specs.Standing.{Standing, IsMeantOver};

use crate::{Draft, ImageRead, RecordFault};
use std::alloc::Global;
use ubik_types::Bytes;

/// How a call on a database ended.
#[derive(Drop)]
pub enum CallEnd {
    /// The call took place; its answer fields.
    Done(Bytes),
    /// Refused by a rule of the database, by its number. Nothing changed.
    Rule(u32),
    /// The bytes are no call.
    Malformed,
    /// The image stands for no state of the database; where that showed, in bytes.
    BadRecord { at: u32 },
    /// What holds the image failed.
    DiskFault,
    /// Memory ran out.
    NoMemory,
}

impl From<RecordFault> for CallEnd {
    ghost use Rattle.std.specs.Prelude.{◌≡◌};
    ghost use Rattle.db_image.specs.Ends.{end_by};

    ghost from_gives = { λ fault ended. ended ≡ end_by fault };

    fn from(fault: RecordFault) -> Self {
        match fault {
            RecordFault::DiskFault => CallEnd::DiskFault,
            RecordFault::BadRecord { at } => CallEnd::BadRecord { at },
            RecordFault::NoMemory => CallEnd::NoMemory,
        }
    }
}

/// A database that a server can run over drafts.
pub trait DraftService {
    /// What its calls mean, and make of images.
    ghost standing: { Standing };

    /// Whether a call's bytes are a call that writes; none where they are no call.
    fn writes(call: &[u8]) -> Option<bool>
        ensures { result ≡ standing.database.writes call.now };

    /// Makes a call at a moment on a draft of at most 16,777,216 bytes. Whatever the image holds, `Malformed` is the answer to bytes that
    /// are no call and to no other, and only a writing call changes the draft. Over an image that stands for a state a call ends as the
    /// database has it; over another one it answers anything else, and `BadRecord` only there. After `BadRecord`, `DiskFault` and
    /// `NoMemory` the draft may hold a part of a writing call, and is to be dropped.
    fn call<I: ImageRead>(alloc: Global, image: &mut Draft<I>, now: u32, call: &[u8]) -> CallEnd
        requires { image.old.len ≤ 16777216 }
        ensures meant { IfSome image.old.bytes (λ bytes. (s : standing.State) → standing.StandsFor bytes s
            → EndsBy (standing.database.call bytes now call.now) result image.new.bytes) }
        ensures grammar { KeepsGrammar (standing.database.writes call.now) result }
        ensures rests { standing.database.writes call.now ≢ Some true → StaysAsItWas image.old image.new }
        ensures short { IsShort result }
        ensures longer { image.old.len ≤ image.new.len }
        ensures layout { image.new.layout ≡ image.old.layout }
        ensures reads { OnlyReads I.ImageRead image.old.image image.new.image (result ≡ CallEnd.DiskFault) };

    /// An image as a draft with this database's blocks.
    fn draft<I: ImageRead>(alloc: Global, image: I) -> Draft<I>
        ensures image { result.image ≡ image }
        ensures bytes { result.bytes ≡ I.held image }
        ensures len { result.len ≡ I.size image }
        ensures head { result.layout.head ≡ standing.database.head }
        ensures block { result.layout.block ≡ standing.database.block };

    /// The empty image stands for the first state.
    ghost empty_is_first: { standing.StandsFor [] standing.meaning.first };

    /// Over an image that stands for a state, the database does what the call means in it.
    ghost is_meant: { (image : List ℕ) (s : standing.State) (now : ℕ) (call : List ℕ) → standing.StandsFor image s
        → IsMeantOver standing image s (standing.database.call image now call) (standing.meaning.call s now call) };

    /// Over each image the database answers bytes that are no call as malformed, and no call so.
    ghost keeps_grammar: { (image : List ℕ) (now : ℕ) (call : List ℕ)
        → KeepsGrammar (standing.database.writes call) (end_of (standing.database.call image now call).reply) };

    /// Over each image only a writing call leaves another one.
    ghost only_writers_change: { (image : List ℕ) (now : ℕ) (call : List ℕ) → standing.database.writes call ≢ Some true
        → (standing.database.call image now call).image ≡ image };

    /// No call leaves a shorter image. So the changes of a call lead to the image after it.
    ghost never_shrinks: { (image : List ℕ) (now : ℕ) (call : List ℕ)
        → length image ≤ length (standing.database.call image now call).image };
}
