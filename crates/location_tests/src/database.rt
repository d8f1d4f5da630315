//! The database as a service, over an image whose reads fail.
use db_image::{CallEnd, DraftService, DraftWords, ImageRead, ReadEnd};
use std::alloc::Global;
use std::test::Fail;
use ubik_types::{Bytes, bytes_of};
use vl_database::VlService;

/// An image of one block whose reads fail.
#[derive(Drop)]
struct FailingImage {
    faults: u64,
}

impl ImageRead for FailingImage {
    ghost use Rattle.std.specs.Prelude.{None};

    ghost held = { λ _. None };

    ghost size = { λ _. 3324 };

    ghost faults = { λ image. image.faults };

    ghost asked = { λ _. None };

    ghost came = { λ _ _. Unit {0} };

    ghost comes_same = { λ _. tt };

    ghost comes_on = { λ _ _ _ _ _. tt };

    fn len(&self) -> u32 {
        3324
    }

    fn read(&mut self, _at: u32, _buf: &mut [u8]) -> ReadEnd {
        if self.faults == u64::MAX {
            return ReadEnd::NoMemory;
        }
        self.faults += 1;
        ReadEnd::DiskFault
    }
}

/// A call of each kind that looks at the image.
const CALLS: [&[&[u8]]; 11] = [
    &[b"getnewvolumeid", b"3"],
    &[
        b"createentry",
        b"a",
        b"4096",
        b"5",
        b"0",
        b"0",
        b"0",
        b"1",
        b"167772161",
        b"7",
        b"4",
    ],
    &[b"deleteentry", b"5", b"0"],
    &[b"getentrybyid", b"5", b"0"],
    &[b"getentrybyname", b"a"],
    &[
        b"replaceentry",
        b"5",
        b"0",
        b"a",
        b"4096",
        b"5",
        b"0",
        b"0",
        b"0",
        b"1",
        b"167772161",
        b"7",
        b"4",
        b"0",
    ],
    &[b"setlock", b"5", b"0", b"16"],
    &[b"releaselock", b"5", b"0", b"3"],
    &[b"listattributes", b"0", b"0", b"-1", b"0"],
    &[b"getaddrs"],
    &[b"changeaddr", b"1", b"2"],
];

fn call_of(alloc: Global, words: &[&[u8]]) -> Result<Bytes, Fail> {
    let mut list = Vec::new(alloc);
    for word in words {
        list.push(bytes_of(alloc, word)?)?;
    }
    Ok(VlService::call_words(alloc, list.as_slice())?.ok_or("a call")?)
}

#[test]
fn reads_fail(rt: HostRuntime) -> Result<(), Fail> {
    let alloc = rt.alloc();
    for words in CALLS {
        let mut draft = VlService::draft(alloc, FailingImage { faults: 0 });
        let call = call_of(alloc, words)?;
        assert!(rt; draft.len() == 3324);
        let end = VlService::call(alloc, &mut draft, 7, call.as_slice());
        assert!(rt; matches!(&end, CallEnd::DiskFault));
    }
    Ok(())
}
