//! The first image: that of the fixed entries, in their chains.
ghost use Rattle.std.specs.Prelude.{◌≡◌, [], Some, true, IfErr, IfOk, length};
ghost use Rattle.prdb_finds.specs.First.{first_image};
ghost use Rattle.prdb_finds.specs.FirstWords.{are_within, with_words};
ghost use Rattle.prdb_finds.specs.Records.{whole};
ghost use Rattle.prdb_finds.specs.declared.places.TheConstants.{FIRST_LEN};

use db_image::{Draft, RecordFault, VecImage};
use prdb_layout::{draft_over, initial_image};
use std::alloc::{AllocError, Global};
use ubik_types::WORD_LEN;

/// The words of chains that are not 0 in the first image, by their places: the number of an entry's block stands in each.
const FIRST_WORDS: [(usize, u32); 17] = [
    // The chains of names, by the sums of their bytes.
    (64 + 4 * 230, 1),
    (64 + 4 * 80, 2),
    (64 + 4 * 59, 3),
    (64 + 4 * 211, 4),
    (64 + 4 * 85, 5),
    (64 + 4 * 233, 6),
    // The chains of ids, by their last bytes.
    (1088 + 4 * 155, 1),
    (1088 + 4 * 154, 2),
    (1088 + 4 * 53, 3),
    (1088 + 4 * 52, 4),
    (1088 + 4 * 51, 5),
    (1088 + 4 * 254, 6),
    // The groups of the entry in the fourth block, each in front of those before it.
    (2112 + 192 * 3 + 108, 5),
    (2112 + 192 * 4 + 104, 4),
    (2112 + 192 * 3 + 104, 3),
    (2112 + 192 * 2 + 104, 2),
    (2112 + 192 + 104, 1),
];

/// Puts words into an image as long as the first one.
fn put_words(image: &mut [u8], words: &[(usize, u32)])
    requires len { length image.old ≡ FIRST_LEN }
    requires within { are_within words.now ≡ true }
    ensures bytes { image.new ≡ with_words words.now image.old }
    ensures len { length image.new ≡ FIRST_LEN }
{
    for word in words {
        let (at, number) = *word;
        image[at..at + WORD_LEN].copy_from_slice(&number.to_be_bytes());
    }
}

/// The image that the first change makes of the empty one.
pub(crate) fn first_bytes(alloc: Global) -> Result<Vec<u8>, AllocError>
    ensures value { IfOk result (λ image. image.items ≡ first_image) }
    ensures len { IfOk result (λ image. length image.items ≡ FIRST_LEN) }
{
    let mut image = initial_image(alloc)?;
    put_words(&mut image, &FIRST_WORDS);
    Ok(image)
}

/// The first image, as a draft of its own: an empty draft is read as it.
#[tactic(auto, unfolding(crate::specs::Records::whole))]
pub fn first_draft(alloc: Global) -> Result<Draft<VecImage>, RecordFault>
    ensures bytes { IfOk result (λ d. d.bytes ≡ Some (whole [])) }
    ensures len { IfOk result (λ d. d.len ≡ FIRST_LEN) }
    ensures fault { IfErr result (λ fault. fault ≡ RecordFault.NoMemory) }
{
    let image = VecImage::new(alloc, &first_bytes(alloc)?)?;
    Ok(draft_over(alloc, image))
}
