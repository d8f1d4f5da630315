//! A disk over a folder. It tells no content, and counts each error.
ghost use Rattle.std.specs.Prelude.{◌≡◌, ◌+◌, ◌^◌, false, None, IfOk, OnOk, OnErr};
ghost use Rattle.disk_base.specs.Count.{HasCause};
ghost use Rattle.disk_base.specs.Stops.{CountsOwn};
ghost use Rattle.disk_base.specs.Stops.DiskStop.{Unarmed};

use crate::folders::{Folder, open_folder};
use crate::{Disk, DiskEnd, FileNo, LenEnd, RoomEnd};
use ghost_values::Tally;
use std::alloc::Global;
use std::fs::File;
use std::io;
use std::os::unix::fs::FileExt;
use std::rt::Files;
use thiserror::Error;

/// Why the files of a folder were not opened.
#[derive(Clone, Copy, Debug, PartialEq, Eq, Error)]
pub enum OpenFault {
    /// The system refused, another server has the folder open, or its database is missing beside a log or an incoming
    /// file that is not empty.
    #[error("the folder and its files cannot be opened")]
    Failed,
    /// Memory ran out, here or in the system.
    #[error("out of memory")]
    NoMemory,
}

impl From<io::Error> for OpenFault {
    ghost use Rattle.std.specs.Prelude.{◌≡◌};
    ghost use Rattle.std.specs.IoError.{error_kind};
    ghost use Rattle.disk_base.specs.FileDisk.{fault_of};

    ghost from_gives = { λ error fault. fault ≡ fault_of (error_kind error) };

    fn from(error: io::Error) -> Self {
        match error.kind() {
            io::ErrorKind::OutOfMemory => OpenFault::NoMemory,
            _ => OpenFault::Failed,
        }
    }
}

/// A disk over three files of a folder. Each error of the system is a failed call, and so is a read past the
/// end. A write that failed may be done in part.
#[derive(Drop)]
pub struct FileDisk {
    folder: Folder,
    steps: Tally,
    faults: Tally,
}

impl FileDisk {
    ghost use Rattle.disk_base.specs.FileDisk.{file_steps, file_faults};

    /// Opens the files `database`, `log` and `incoming` of a folder, and makes those that are not there. The folder is
    /// locked first, until the disk is dropped, and what it has is made durable before it is handed out: each file is
    /// copied into a new one, which is synced and put in its place.
    pub fn open<R: Files<File = File>>(
        rt: &R,
        alloc: Global,
        folder: &str,
    ) -> Result<FileDisk, OpenFault>
        ensures steps { IfOk result (λ disk. file_steps disk ≡ 0) }
        ensures faults { IfOk result (λ disk. file_faults disk ≡ 0) }
    {
        Ok(FileDisk {
            folder: open_folder(rt, alloc, folder)?,
            steps: Tally::new(),
            faults: Tally::new(),
        })
    }

    fn file(&self, f: FileNo) -> &File {
        match f {
            FileNo::Database => &self.folder.database,
            FileNo::Log => &self.folder.log,
            FileNo::Incoming => &self.folder.incoming,
        }
    }

    /// One more fault.
    fn fail(&mut self)
        ensures faults { file_faults self.new ≡ file_faults self.old + 1 }
        ensures steps { file_steps self.new ≡ file_steps self.old }
    {
        self.faults = self.faults.next();
    }

    /// Ends a call, and counts its error.
    fn end(&mut self, done: io::Result<()>) -> DiskEnd
        ensures ok { OnOk done (result ≡ DiskEnd.Done) }
        ensures err { OnErr done (result ≡ DiskEnd.Failed) }
        ensures cause { HasCause (file_faults self.old) (file_faults self.new) (result ≡ DiskEnd.Failed) }
        ensures own { CountsOwn (file_faults self.old) (file_faults self.new) Unarmed (result ≡ DiskEnd.Failed) }
        ensures steps { file_steps self.new ≡ file_steps self.old }
    {
        match done {
            Ok(()) => DiskEnd::Done,
            Err(_) => {
                self.fail();
                DiskEnd::Failed
            }
        }
    }
}

impl Disk for FileDisk {
    ghost use Rattle.disk_base.specs.FileDisk.{file_steps, file_faults, untold};

    ghost files = { λ disk. None };

    ghost room = { λ disk f. 2 ^ 64 };

    ghost steps = { file_steps };

    ghost faults = { file_faults };

    ghost own_faults = { file_faults };

    ghost stop = { λ disk. Unarmed };

    ghost pending = { λ disk. None };

    ghost tells = { λ disk. false };

    ghost may_leave = { λ disk c. Unit {0} };

    ghost left_since = { λ disk t c. Unit {0} };

    ghost counts_now = { λ disk t c since now. tt };

    ghost only_now = { λ disk c left. tt };

    ghost may_be_read = { λ disk fs told. tt };

    ghost has_room = { λ disk f. tt };

    ghost tells_both = { λ disk told. told };

    ghost tells_now = { λ disk told. told };

    ghost tells_pending = { λ disk told. untold told };

    ghost leaves_pending = { λ disk. tt };

    fn len(&mut self, f: FileNo) -> LenEnd {
        match self.file(f).metadata() {
            Ok(metadata) => LenEnd::Known(metadata.len()),
            Err(_) => {
                self.fail();
                LenEnd::Failed
            }
        }
    }

    fn reserve(&mut self, _: FileNo, _: u64) -> RoomEnd {
        RoomEnd::Done
    }

    fn read(&mut self, f: FileNo, at: u64, buf: &mut [u8]) -> DiskEnd {
        let read = self.file(f).read_exact_at(buf, at);
        self.end(read)
    }

    fn write_at(&mut self, f: FileNo, at: u64, bytes: &[u8]) -> DiskEnd {
        self.steps = self.steps.next();
        let written = self.file(f).write_all_at(bytes, at);
        self.end(written)
    }

    fn cut(&mut self, f: FileNo, len: u64) -> DiskEnd {
        self.steps = self.steps.next();
        let cut = self.file(f).set_len(len);
        self.end(cut)
    }

    fn sync(&mut self, f: FileNo) -> DiskEnd {
        self.steps = self.steps.next();
        let synced = self.file(f).sync_data();
        self.end(synced)
    }
}
