//! A call of a row, by its words.
use crate::answers::Answer;
use crate::bytes::Names;
use crate::devices::Device;
use crate::disks::{call_disk, planned};
use crate::logs::{call_bytes, course, keep, read_file};
use crate::pages::{call_pages, open_over, open_pages};
use crate::stores::{Stop, call_store, open_store};
use crate::words::fill_of;
use disk_base::MemDisk;
use session_rows::{Fault, long_in, number_in};
use std::alloc::Global;

/// Makes a call, and says what the next one is made on.
pub fn make(
    alloc: Global,
    names: &Names,
    device: Device,
    words: &[&str],
) -> Result<(Device, Answer), Fault> {
    let first = words.first().copied().unwrap_or("");
    match first {
        "fail" | "keep" | "course" => begin(alloc, names, words),
        "pages" | "over" | "open" | "close" => open(alloc, device.into_disk(), words),
        "encode" | "empty" | "parse" | "changes" | "again" => {
            let answer = call_bytes(alloc, names, words)?;
            Ok((device, answer))
        }
        _ => make_on(alloc, names, device, words),
    }
}

/// Makes a call on a disk of its own.
fn begin(alloc: Global, names: &Names, words: &[&str]) -> Result<(Device, Answer), Fault> {
    match words {
        ["fail", numbers @ ..] => Ok((planned(alloc, numbers)?, Answer::text(alloc, "done")?)),
        ["keep", log] => keep(alloc, names, log, None),
        ["keep", log, "stop", calls, fill] => keep(alloc, names, log, Some(stop_of(calls, fill)?)),
        ["course", log] => course(alloc, names, log, &[]),
        ["course", log, "fail", number] => course(alloc, names, log, &[long_in(number)?]),
        _ => Err(Fault::Form),
    }
}

/// Opens what stands on a disk, or leaves it as it is.
fn open(alloc: Global, disk: MemDisk, words: &[&str]) -> Result<(Device, Answer), Fault> {
    match words {
        ["pages"] => open_pages(alloc, disk),
        ["over"] => open_over(alloc, disk),
        ["open"] => open_store(alloc, disk, None),
        ["open", "stop", calls, fill] => open_store(alloc, disk, Some(stop_of(calls, fill)?)),
        ["close"] => Ok((Device::Disk(disk), Answer::text(alloc, "done")?)),
        _ => Err(Fault::Form),
    }
}

/// Makes a call of what there is.
fn make_on(
    alloc: Global,
    names: &Names,
    device: Device,
    words: &[&str],
) -> Result<(Device, Answer), Fault> {
    match device {
        Device::Disk(mut disk) => {
            let answer = match words {
                ["logged"] => read_file(alloc, &mut disk)?,
                _ => call_disk(alloc, names, &mut disk, words)?,
            };
            Ok((Device::Disk(disk), answer))
        }
        Device::Pages(paged) => call_pages(alloc, names, paged, words),
        Device::Store(mut held) => {
            let answer = call_store(alloc, names, &mut held, words)?;
            Ok((Device::Store(held), answer))
        }
    }
}

fn stop_of(calls: &str, fill: &str) -> Result<Stop, Fault> {
    Ok(Stop {
        calls: number_in(calls)?,
        fill: fill_of(fill)?,
    })
}
