//! A write in its flight, and the image before it, over images whose reads fail.
use db_image::{ImageRead, ReadEnd, VecImage};
use std::alloc::Global;
use std::process::Abort;
use std::test::Fail;
use ubik_types::{Change, Changes, NoMemory, Version, bytes_of};
use ubik_write::{BeforeImage, Flight, FlightFault, text_len};

const OLD: Version = Version {
    epoch: 1076,
    counter: 1,
};

const NEW: Version = Version {
    epoch: 1076,
    counter: 2,
};

/// An image of three bytes whose reads fail.
#[derive(Drop)]
struct FailingImage {
    faults: u64,
}

impl ImageRead for FailingImage {
    ghost use Rattle.std.specs.Prelude.{None};

    ghost held = { λ _. None };

    ghost size = { λ _. 3 };

    ghost faults = { λ image. image.faults };

    ghost asked = { λ _. None };

    ghost came = { λ _ _. Unit {0} };

    ghost comes_same = { λ _. tt };

    ghost comes_on = { λ _ _ _ _ _. tt };

    fn len(&self) -> u32 {
        3
    }

    fn read(&mut self, _at: u32, _buf: &mut [u8]) -> ReadEnd {
        if self.faults == u64::MAX {
            return ReadEnd::NoMemory;
        }
        self.faults += 1;
        ReadEnd::DiskFault
    }
}

fn put(alloc: Global, at: u32, bytes: &[u8]) -> Result<Change, NoMemory> {
    let bytes = bytes_of(alloc, bytes)?;
    Ok(Change::Put { at, bytes })
}

/// Puts within an image of eight bytes and past its end, and a cut before another put.
fn changes(alloc: Global) -> Result<Changes, NoMemory> {
    let mut list = Vec::new(alloc);
    list.push(put(alloc, 1, b"XY")?)?;
    list.push(put(alloc, 7, b"ZZ")?)?;
    list.push(Change::Cut { len: 5 })?;
    list.push(put(alloc, 6, b"W")?)?;
    Ok(Changes::new(list))
}

/// An image whose reads fail fails before a write too, and where nothing of it is read there is no fault.
fn expect_before(rt: &impl Abort, flight: &Flight) {
    let image = FailingImage { faults: 0 };
    let mut before = BeforeImage { image, flight };
    let mut part = [0; 5];
    assert_eq!(rt; before.len(), 8);
    assert_eq!(rt; before.read(2, &mut part), ReadEnd::DiskFault);
    assert_eq!(rt; before.image.faults, 1);
    assert_eq!(rt; before.read(3, &mut part), ReadEnd::Done);
    assert_eq!(rt; before.image.faults, 1);
    assert_eq!(rt; part, *b"\0\0fgh");
}

/// No flight is made over an image whose reads fail.
#[test]
fn reads_that_fail(rt: HostRuntime) -> Result<(), Fail> {
    let alloc = rt.alloc();
    let changes = changes(alloc)?;
    assert!(rt; text_len(&changes) < 100);
    let mut whole = VecImage::new(alloc, b"abcdefgh")?;
    let flight = Flight::make(alloc, 5, OLD, NEW, 1076, &changes, &mut whole)?;
    expect_before(&rt, &flight);
    let mut image = FailingImage { faults: 0 };
    let made = Flight::make(alloc, 5, OLD, NEW, 1076, &changes, &mut image).err();
    assert_eq!(rt; made, Some(FlightFault::DiskFault));
    assert_eq!(rt; image.faults, 1);
    Ok(())
}
