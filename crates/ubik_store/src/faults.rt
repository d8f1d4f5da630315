//! Why a call of a store was not done.
use incoming_file::{IncomingFault, RoomyText};
use page_file::{LABEL_LEN, PageFault};
use thiserror::Error;
use ubik_log::LogFault;
use ubik_types::{NoMemory, Version};

/// Why a call of a store was not done. After `DiskFault` each further call that may fail answers so, until the store
/// is opened anew; after any other the store is as before.
#[derive(Debug, Drop, Error)]
pub enum StoreFault {
    /// The disk failed.
    #[error("the disk failed")]
    DiskFault,
    /// The database file of `len` bytes is too long, or does not begin with a label. `head` has as many of its first
    /// bytes as a label has, and zero bytes where it is shorter.
    #[error("a database file of {len} bytes has no label")]
    BadLabel { len: u64, head: [u8; LABEL_LEN] },
    /// The puts of a transaction would have `bytes` bytes, or the image would.
    #[error("{bytes} bytes are too many")]
    TooLarge { bytes: u64 },
    /// The version that was given does not come after the store's own.
    #[error("the version {given:?} is not newer than {own:?}")]
    NotNewer { own: Version, given: Version },
    /// Memory ran out.
    #[error("out of memory")]
    NoMemory,
}

/// Why a text was not installed, and the text as it was given.
#[derive(Drop)]
pub struct NotInstalled {
    pub why: StoreFault,
    pub text: RoomyText,
}

impl From<PageFault> for StoreFault {
    ghost use Rattle.std.specs.Prelude.{◌≡◌};
    ghost use Rattle.ubik_store.specs.Faults.{of_page};

    ghost from_gives = { λ fault e. e ≡ of_page fault };

    fn from(fault: PageFault) -> Self {
        match fault {
            PageFault::DiskFault => StoreFault::DiskFault,
            PageFault::BadLabel { len, head } => StoreFault::BadLabel { len, head },
            PageFault::NoMemory => StoreFault::NoMemory,
        }
    }
}

impl From<LogFault> for StoreFault {
    ghost use Rattle.std.specs.Prelude.{◌≡◌};
    ghost use Rattle.ubik_store.specs.Faults.{of_log};

    ghost from_gives = { λ fault e. e ≡ of_log fault };

    fn from(fault: LogFault) -> Self {
        match fault {
            LogFault::DiskFault => StoreFault::DiskFault,
            LogFault::NoMemory => StoreFault::NoMemory,
        }
    }
}

impl From<IncomingFault> for StoreFault {
    ghost use Rattle.std.specs.Prelude.{◌≡◌};
    ghost use Rattle.ubik_store.specs.Faults.{of_incoming};

    ghost from_gives = { λ fault e. e ≡ of_incoming fault };

    fn from(fault: IncomingFault) -> Self {
        match fault {
            IncomingFault::DiskFault => StoreFault::DiskFault,
            IncomingFault::NoMemory => StoreFault::NoMemory,
        }
    }
}

impl From<NoMemory> for StoreFault {
    ghost use Rattle.std.specs.Prelude.{◌≡◌};
    ghost use Rattle.ubik_store.specs.declared.faults.StoreFault.TheVariants as fault;

    ghost from_gives = { λ _ e. e ≡ fault.NoMemory };

    fn from(_: NoMemory) -> Self {
        StoreFault::NoMemory
    }
}
