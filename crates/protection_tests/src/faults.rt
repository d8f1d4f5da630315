//! Calls over an image of which a read fails.
use db_image::{CallEnd, Draft, DraftService, DraftWords, ImageRead, ReadEnd, VecImage};
use pt_database::PtService;
use std::alloc::Global;
use std::process::Abort;
use std::test::Fail;
use ubik_types::{Bytes, MAX_IMAGE, bytes_of};

/// The most reads that a call of this test makes.
const MAX_READS: u32 = 1000;

/// An image in memory of which so many reads are done, and each one behind them fails.
#[derive(Drop)]
struct FailingImage {
    image: VecImage,
    left: u32,
    faults: u64,
}

impl ImageRead for FailingImage {
    ghost use Rattle.std.specs.Prelude.{Some, None, length};
    ghost use Rattle.db_image.specs.VecImage.{bytes_of_image};

    ghost held = { λ i. Some (bytes_of_image i.image) };

    ghost size = { λ i. length (bytes_of_image i.image) };

    ghost faults = { λ i. i.faults };

    ghost asked = { λ _. None };

    ghost came = { λ _ _. Unit {0} };

    ghost comes_same = { λ _. tt };

    ghost comes_on = { λ _ _ _ _ _. tt };

    fn len(&self) -> u32 {
        self.image.len()
    }

    fn read(&mut self, at: u32, buf: &mut [u8]) -> ReadEnd {
        match self.left.checked_sub(1) {
            Some(left) => {
                self.left = left;
                self.image.read(at, buf)
            }
            None => match self.faults.checked_add(1) {
                Some(faults) => {
                    self.faults = faults;
                    ReadEnd::DiskFault
                }
                None => ReadEnd::NoMemory,
            },
        }
    }
}

/// The bytes of a call in words.
fn call_of(alloc: Global, line: &str) -> Result<Bytes, Fail> {
    let mut words = Vec::new(alloc);
    for word in line.as_bytes().split(|byte| *byte == b' ') {
        words.push(bytes_of(alloc, word)?)?;
    }
    Ok(PtService::call_words(alloc, &words)?.ok_or("no call")?)
}

/// Calls that lead to an image, which are done.
const FIRST: [&str; 4] = [
    "newentry smith 0 0",
    "newentry staff 2 0",
    "newentry jones 0 0",
    "addtogroup 1 -206",
];

/// Calls that are done over that image, one of each kind.
const CALLS: [&str; 17] = [
    "newentry brown 0 0",
    "inewentry brown 7 0",
    "nametoid 1 smith",
    "idtoname 1 1",
    "delete 1",
    "addtogroup 2 -206",
    "removefromgroup 1 -206",
    "getcps 1",
    "listmax",
    "setmax 9 0",
    "listentry 1",
    "listentries 3 0",
    "changeentry 1 smythe 0 9",
    "setfields 1 2 0 5",
    "listelements 1",
    "ismemberof 1 -206",
    "listowned -204",
];

/// All bytes of a draft.
fn bytes_of_draft(alloc: Global, draft: &mut Draft<VecImage>) -> Result<Bytes, Fail> {
    let mut bytes = vec![in alloc; 0; draft.len() as usize]?;
    draft.read(0, &mut bytes).done()?;
    Ok(Bytes::new(bytes))
}

/// The image that the first calls lead to.
fn first_image(rt: &impl Abort, alloc: Global) -> Result<Bytes, Fail> {
    let mut draft = PtService::draft(alloc, VecImage::new(alloc, b"")?);
    for line in FIRST {
        let call = call_of(alloc, line)?;
        assert!(rt; draft.len() as usize <= MAX_IMAGE);
        let end = PtService::call(alloc, &mut draft, 1076, call.as_slice());
        assert!(rt; matches!(end, CallEnd::Done(_)), "{line}");
    }
    bytes_of_draft(alloc, &mut draft)
}

/// Whether a call is done where so many reads are done; else it ends as the disk failed.
fn is_done_with(
    rt: &impl Abort,
    alloc: Global,
    image: &[u8],
    left: u32,
    call: &[u8],
) -> Result<bool, Fail> {
    assert!(rt; image.len() <= MAX_IMAGE);
    let image = FailingImage {
        image: VecImage::new(alloc, image)?,
        left,
        faults: 0,
    };
    let mut draft = PtService::draft(alloc, image);
    let end = PtService::call(alloc, &mut draft, 1076, call);
    let (image, _) = draft.finish();
    match end {
        CallEnd::Done(_) => {
            assert_eq!(rt; image.faults, 0);
            Ok(true)
        }
        CallEnd::DiskFault => {
            assert_eq!(rt; image.faults, 1);
            Ok(false)
        }
        _ => panic!(rt; "another end"),
    }
}

#[test]
fn a_failed_read_ends_a_call(rt: HostRuntime) -> Result<(), Fail> {
    let image = first_image(&rt, rt.alloc())?;
    for line in CALLS {
        let call = call_of(rt.alloc(), line)?;
        let mut reads = None;
        for left in 0..MAX_READS {
            if is_done_with(&rt, rt.alloc(), image.as_slice(), left, call.as_slice())? {
                reads = Some(left);
                break;
            }
        }
        assert!(rt; reads.is_some_and(|reads| reads > 0), "{line}");
    }
    Ok(())
}
