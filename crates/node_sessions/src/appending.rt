//! A small database: a call answers the image and appends its bytes to it.
ghost use Rattle.std.specs.Prelude.{◌≡◌, ◌≤◌, IfOk, IfErr, IfSome, IsErrOf, length};
ghost use Rattle.db_image.specs.Draft.{StaysAsItWas};
ghost use Rattle.db_image.specs.Ends.{EndsBy, IsDecided};
ghost use Rattle.db_image.specs.Images.{IsOfImage, OnlyReads};
ghost use Rattle.node_sessions.specs.Appending.{appended, appending};

use db_image::{CallEnd, Draft, DraftService, ImageRead, RecordFault};
use std::alloc::Global;
use ubik_types::Bytes;

/// A database whose calls answer the image and append their bytes to it.
#[derive(Drop)]
pub struct Appending;

/// The most bytes of a call: more than changes may have.
const MOST: usize = 2_097_152;

/// Appends a call to an image, and answers what it was.
fn append<I: ImageRead>(
    alloc: Global,
    d: &mut Draft<I>,
    call: &[u8],
) -> Result<CallEnd, RecordFault>
    requires len { d.old.len ≤ 16777216 }
    requires call { length call.now ≤ 2097152 }
    ensures meant { IfOk result (λ end. IfSome d.old.bytes (λ image. EndsBy (appended image call.now) end d.new.bytes)) }
    ensures short { IfOk result IsDecided }
    ensures rests { length call.now ≡ 0 → StaysAsItWas d.old d.new }
    ensures longer { d.old.len ≤ d.new.len }
    ensures layout { d.new.layout ≡ d.old.layout }
    ensures fault { IfErr result IsOfImage }
    ensures reads { OnlyReads I.ImageRead d.old.image d.new.image (IsErrOf result RecordFault.DiskFault) }
{
    let len = d.len();
    if len > 1_048_576 {
        return Ok(CallEnd::Rule(7));
    }
    let Ok(mut answer) = vec![in alloc; 0u8; len as usize] else {
        return Err(RecordFault::NoMemory);
    };
    d.read(0, &mut answer).done()?;
    d.put(len, call)?;
    Ok(CallEnd::Done(Bytes::new(answer)))
}

impl DraftService for Appending {
    ghost use Rattle.std.specs.Prelude.{refl};
    ghost use Rattle.node_sessions.specs.Appending.{appending, appending_grows, appending_is_meant, appending_keeps_grammar, only_appending_changes};

    ghost standing = { appending };

    ghost empty_is_first = { refl };

    ghost is_meant = { appending_is_meant };

    ghost keeps_grammar = { appending_keeps_grammar };

    ghost only_writers_change = { only_appending_changes };

    ghost never_shrinks = { appending_grows };

    fn writes(call: &[u8]) -> Option<bool> {
        if call.len() > MOST {
            None
        } else {
            Some(!call.is_empty())
        }
    }

    fn call<I: ImageRead>(alloc: Global, image: &mut Draft<I>, _now: u32, call: &[u8]) -> CallEnd {
        if call.len() > MOST {
            return CallEnd::Malformed;
        }
        match append(alloc, image, call) {
            Ok(end) => end,
            Err(fault) => fault.into(),
        }
    }

    fn draft<I: ImageRead>(alloc: Global, image: I) -> Draft<I> {
        Draft::over(alloc, image, 4, 4096)
    }
}
