//! Why a line is not run to its end.
use cell_runs::Which;
use cell_script::Why;
use thiserror::Error;
use ubik_types::NoMemory;

/// Why a line of a script is not run to its end.
#[derive(Clone, Copy, Debug, PartialEq, Eq, Error)]
pub enum LineFault {
    /// It is refused, and nothing was done.
    #[error("the line is refused")]
    Refused(Why),
    /// A packet that it sends passes a limit. What was seen before that packet was told.
    #[error("a limit of a script is passed")]
    Limit(Which),
    /// Memory ran out.
    #[error("out of memory")]
    NoMemory,
}

impl From<NoMemory> for LineFault {
    ghost use Rattle.std.specs.Prelude.{◌≡◌};
    ghost use Rattle.cell_sites.specs.declared.faults.LineFault.TheVariants as fault;

    ghost from_gives = { λ _ e. e ≡ fault.NoMemory };

    fn from(_: NoMemory) -> Self {
        LineFault::NoMemory
    }
}

impl From<Why> for LineFault {
    ghost use Rattle.std.specs.Prelude.{◌≡◌};
    ghost use Rattle.cell_sites.specs.declared.faults.LineFault.TheVariants as fault;

    ghost from_gives = { λ why e. e ≡ fault.Refused why };

    fn from(why: Why) -> Self {
        LineFault::Refused(why)
    }
}
