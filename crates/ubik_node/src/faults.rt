//! Why nothing was made of the image of a store.
ghost use Rattle.std.specs.Prelude.{◌≡◌, ◌↔◌, ◌⊎◌, true, Ok, IfErr, IfOk, IsErrOf};

use thiserror::Error;
use ubik_store::StoreFault;
use ubik_write::FlightFault;

/// Why nothing was made of the image of a store.
#[derive(Clone, Copy, Debug, PartialEq, Eq, Error)]
pub enum ImageFault {
    /// A read of it failed.
    #[error("the disk failed")]
    DiskFault,
    /// Memory ran out.
    #[error("out of memory")]
    NoMemory,
}

impl From<FlightFault> for ImageFault {
    ghost use Rattle.std.specs.Prelude.{◌≡◌};
    ghost use Rattle.ubik_node.specs.Faults.{of_flight};

    ghost from_gives = { λ fault e. e ≡ of_flight fault };

    fn from(fault: FlightFault) -> Self {
        match fault {
            FlightFault::DiskFault => ImageFault::DiskFault,
            FlightFault::NoMemory => ImageFault::NoMemory,
        }
    }
}

impl From<ImageFault> for StoreFault {
    ghost use Rattle.std.specs.Prelude.{◌≡◌};
    ghost use Rattle.ubik_node.specs.Faults.{of_image};

    ghost from_gives = { λ fault e. e ≡ of_image fault };

    fn from(fault: ImageFault) -> Self {
        match fault {
            ImageFault::DiskFault => StoreFault::DiskFault,
            ImageFault::NoMemory => StoreFault::NoMemory,
        }
    }
}

/// What was made over the image of a store that has failed meanwhile, or has not. Where it has, that is a fault of the disk, whatever was
/// made: a database may keep a fault to itself.
pub fn outcome_over<T: Drop>(failed: bool, made: Result<T, ImageFault>) -> Result<T, StoreFault>
    requires { IsErrOf made ImageFault.DiskFault → failed ≡ true }
    ensures made { IfOk result (λ it. made ≡ Ok it) }
    ensures fault { IsErrOf result StoreFault.DiskFault ↔ (failed ≡ true) }
    ensures memory { IsErrOf result StoreFault.NoMemory → IsErrOf made ImageFault.NoMemory }
    ensures either { IfErr result (λ fault. (fault ≡ StoreFault.DiskFault) ⊎ (fault ≡ StoreFault.NoMemory)) }
{
    if failed {
        return Err(StoreFault::DiskFault);
    }
    Ok(made?)
}
