//! What a database makes of a call over the image of a store, or over the one before the write in flight.
ghost use Rattle.std.specs.Prelude.{◌≡◌, ◌<◌, ◌≤◌, ◌⊎◌, ℕ, false, IfOk, IfErr, IsErrOf};
ghost use Rattle.std.specs.Option.{option_map};
ghost use Rattle.disk_base.specs.Runs.{OnlyReads};
ghost use Rattle.db_image.specs.Blocks.{LeadSome, PutSome};
ghost use Rattle.db_image.specs.Ends.{KeepsGrammar, end_of};
ghost use Rattle.db_image.specs.Images as images;
ghost use Rattle.ubik_write.specs.Undo.{image_before};
ghost use Rattle.ubik_store.specs.DurableCall.{HasFailed};
ghost use Rattle.ubik_store.specs.Store.{IsSound, StaysAsItWas, image_in};
ghost use Rattle.ubik_node.specs.Evaluation.{IsMadeOf, IsShortReply};

use crate::faults::{ImageFault, outcome_over};
use crate::store_images::StoreImage;
use db_image::{CallEnd, CallReply, DraftService, ImageRead};
use disk_base::Disk;
use ghost_values::Tally;
use std::alloc::Global;
use ubik_store::{Store, StoreFault};
use ubik_types::{Changes, NoMemory};
use ubik_write::{BeforeImage, Flight};

/// What a database makes of a call: its reply, the changes that lead to the image after it, and the length of the image before it.
#[derive(Drop)]
pub struct Evaluation {
    pub reply: CallReply,
    pub changes: Changes,
    pub len: u32,
}

/// Makes a call at a moment over an image, of which it reads what it needs, and gives the image back. Nothing is changed there.
fn evaluate_over<I: ImageRead, V: DraftService>(
    alloc: Global,
    image: I,
    now: u32,
    call: &[u8],
) -> (I, Result<Evaluation, ImageFault>)
    requires { I.size image ≤ 16777216 }
    ensures made { IfOk result.1 (IsMadeOf V.standing (I.held image) now call.now) }
    ensures len { IfOk result.1 (λ made. made.len ≡ I.size image) }
    ensures lead { IfOk result.1 (λ made. (len : ℕ) × LeadSome V.standing.database.head V.standing.database.block (I.size image) len made.changes) }
    ensures grammar { IfOk result.1 (λ made. KeepsGrammar (V.standing.database.writes call.now) (end_of made.reply)) }
    ensures short { IfOk result.1 (λ made. IsShortReply made.reply) }
    ensures puts { IfOk result.1 (λ made. PutSome made.changes) }
    ensures block { 0 < V.standing.database.block }
    ensures reads { images.OnlyReads I.ImageRead image result.0 (IsErrOf result.1 ImageFault.DiskFault) }
{
    let len = image.len();
    let mut draft = V::draft(alloc, image);
    let end = V::call(alloc, &mut draft, now, call);
    let (image, changes) = draft.finish();
    let reply = match end {
        CallEnd::Done(answer) => CallReply::Done(answer),
        CallEnd::Rule(number) => CallReply::Rule(number),
        CallEnd::Malformed => CallReply::Malformed,
        CallEnd::BadRecord { at } => CallReply::BadRecord { at },
        CallEnd::DiskFault => return (image, Err(ImageFault::DiskFault)),
        CallEnd::NoMemory => return (image, Err(ImageFault::NoMemory)),
    };
    let made = match changes {
        Ok(changes) => Evaluation {
            reply,
            changes,
            len,
        },
        Err(NoMemory) => return (image, Err(ImageFault::NoMemory)),
    };
    (image, Ok(made))
}

/// Makes a call at a moment over the image of a store. A read that fails is a fault of the disk, whatever the database makes of it.
pub fn evaluate<D: Disk, V: DraftService>(
    alloc: Global,
    store: &mut Store<D>,
    now: u32,
    call: &[u8],
) -> Result<Evaluation, StoreFault>
    requires sound { IsSound D.Disk store.old }
    requires fresh { store.old.failed ≡ false }
    ensures made { IfOk result (IsMadeOf V.standing (image_in (D.files store.old.disk)) now call.now) }
    ensures len { IfOk result (λ made. made.len ≡ store.old.len) }
    ensures lead { IfOk result (λ made. (len : ℕ) × LeadSome V.standing.database.head V.standing.database.block store.old.len len made.changes) }
    ensures block { 0 < V.standing.database.block }
    ensures grammar { IfOk result (λ made. KeepsGrammar (V.standing.database.writes call.now) (end_of made.reply)) }
    ensures short { IfOk result (λ made. IsShortReply made.reply) }
    ensures puts { IfOk result (λ made. PutSome made.changes) }
    ensures sound { IsSound D.Disk store.new }
    ensures same { ¬ IsErrOf result StoreFault.DiskFault → StaysAsItWas store.old store.new }
    ensures failed { IsErrOf result StoreFault.DiskFault → HasFailed store.old store.new }
    ensures fault { IfErr result (λ fault. (fault ≡ StoreFault.DiskFault) ⊎ (fault ≡ StoreFault.NoMemory)) }
    ensures disk { OnlyReads D.Disk store.old.disk store.new.disk (IsErrOf result StoreFault.DiskFault) }
{
    let (image, made) = evaluate_over::<StoreImage<D>, V>(
        alloc,
        StoreImage {
            store,
            faults: Tally::new(),
        },
        now,
        call,
    );
    let StoreImage {
        store,
        faults: _faults,
    } = image;
    let failed = store.failed();
    // From here on the store is known again.
    let _store = store;
    outcome_over(failed, made)
}

/// Makes a call at a moment over the image before the write in flight. Else as `evaluate`.
pub fn evaluate_before<D: Disk, V: DraftService>(
    alloc: Global,
    store: &mut Store<D>,
    flight: &Flight,
    now: u32,
    call: &[u8],
) -> Result<Evaluation, StoreFault>
    requires sound { IsSound D.Disk store.old }
    requires fresh { store.old.failed ≡ false }
    requires fits { flight.now.old_len ≤ 16777216 }
    ensures made { IfOk result (IsMadeOf V.standing (option_map (image_before flight.now.undo flight.now.old_len) (image_in (D.files store.old.disk))) now call.now) }
    ensures grammar { IfOk result (λ made. KeepsGrammar (V.standing.database.writes call.now) (end_of made.reply)) }
    ensures short { IfOk result (λ made. IsShortReply made.reply) }
    ensures puts { IfOk result (λ made. PutSome made.changes) }
    ensures sound { IsSound D.Disk store.new }
    ensures same { ¬ IsErrOf result StoreFault.DiskFault → StaysAsItWas store.old store.new }
    ensures failed { IsErrOf result StoreFault.DiskFault → HasFailed store.old store.new }
    ensures fault { IfErr result (λ fault. (fault ≡ StoreFault.DiskFault) ⊎ (fault ≡ StoreFault.NoMemory)) }
    ensures disk { OnlyReads D.Disk store.old.disk store.new.disk (IsErrOf result StoreFault.DiskFault) }
{
    let before = BeforeImage {
        image: StoreImage {
            store,
            faults: Tally::new(),
        },
        flight,
    };
    let (before, made) = evaluate_over::<BeforeImage<StoreImage<D>>, V>(alloc, before, now, call);
    let BeforeImage { image, flight: _ } = before;
    let StoreImage {
        store,
        faults: _faults,
    } = image;
    let failed = store.failed();
    // From here on the store is known again.
    let _store = store;
    outcome_over(failed, made)
}
