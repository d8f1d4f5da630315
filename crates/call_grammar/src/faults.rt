//! Why nothing was read.
use std::alloc::{AllocError, AllocFailed};
use ubik_types::NoMemory;
use xdr_base::XdrFault;

/// No value of the wanted shape stands at the place.
#[derive(Clone, Copy, Debug, PartialEq, Eq)]
pub struct NoValue;

impl From<XdrFault> for NoValue {
    fn from(_: XdrFault) -> Self {
        NoValue
    }
}

/// Why a value that takes memory was not read.
#[derive(Clone, Copy, Debug, PartialEq, Eq)]
pub enum NotRead {
    /// None stands there.
    None,
    /// Memory ran out.
    NoMemory,
}

impl From<NoValue> for NotRead {
    ghost use Rattle.std.specs.Prelude.{◌≡◌};
    ghost use Rattle.call_grammar.specs.declared.faults.NotRead.TheVariants as fault;

    ghost from_gives = { λ _ e. e ≡ fault.None };

    fn from(_: NoValue) -> Self {
        NotRead::None
    }
}

impl From<XdrFault> for NotRead {
    ghost use Rattle.std.specs.Prelude.{◌≡◌};
    ghost use Rattle.call_grammar.specs.declared.faults.NotRead.TheVariants as fault;

    ghost from_gives = { λ _ e. e ≡ fault.None };

    fn from(_: XdrFault) -> Self {
        NotRead::None
    }
}

impl From<NoMemory> for NotRead {
    ghost use Rattle.std.specs.Prelude.{◌≡◌};
    ghost use Rattle.call_grammar.specs.declared.faults.NotRead.TheVariants as fault;

    ghost from_gives = { λ _ e. e ≡ fault.NoMemory };

    fn from(_: NoMemory) -> Self {
        NotRead::NoMemory
    }
}

impl From<AllocError> for NotRead {
    ghost use Rattle.std.specs.Prelude.{◌≡◌};
    ghost use Rattle.call_grammar.specs.declared.faults.NotRead.TheVariants as fault;

    ghost from_gives = { λ _ e. e ≡ fault.NoMemory };

    fn from(_: AllocError) -> Self {
        NotRead::NoMemory
    }
}

impl<T: Drop> From<AllocFailed<T>> for NotRead {
    ghost use Rattle.std.specs.Prelude.{◌≡◌};
    ghost use Rattle.call_grammar.specs.declared.faults.NotRead.TheVariants as fault;

    ghost from_gives = { λ _ e. e ≡ fault.NoMemory };

    fn from(_: AllocFailed<T>) -> Self {
        NotRead::NoMemory
    }
}
