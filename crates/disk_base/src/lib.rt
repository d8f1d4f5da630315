//! Sources, sinks and disks: what the project asks of the outside, each as a trait with a written meaning,
//! with forms in memory.
#![tactic(auto)]

mod adapters;
mod disks;
mod file_disks;
mod folders;
mod memory_calls;
mod memory_disks;
mod memory_files;
mod memory_streams;
mod mirrored_disks;
mod mirrors;
mod moments;
mod plans;
mod sinks;
mod sources;
mod touches;
mod undos;
mod unsynced;

pub use adapters::{ReaderSource, WriterSink};
pub use disks::{Disk, DiskEnd, FileNo, Fill, LenEnd, Refused, RoomEnd, StopDisk};
pub use file_disks::{FileDisk, OpenFault};
pub use memory_disks::MemDisk;
pub use memory_streams::{MemSink, MemSource};
pub use mirrored_disks::{MirrorFault, Mirrored, MostBytes};
pub use sinks::{Sink, Wrote};
pub use sources::{Got, Source};
