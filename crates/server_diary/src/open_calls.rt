//! The writing calls that were taken and are not answered yet.
ghost use Rattle.std.specs.Prelude.{◌≡◌, ◌≤◌, ◌<◌, ◌++◌, ◌∷◌, [], length, None, IfSome, IfNone, OnOk, OnErr, position};
ghost use Rattle.server_diary.specs.OpenCalls.{Takes, is_call};
ghost use Rattle.server_diary.specs.declared.open_calls.TheConstants.{MOST_OPEN};

use std::alloc::Global;
use ubik_types::{Bytes, Host, NoMemory};

/// How many calls are kept at most: a server has far fewer under way.
const MOST_OPEN: usize = 1_024;

/// A writing call that was taken.
#[derive(Drop)]
pub(crate) struct OpenCall {
    /// The peer that asked it, and its number among the calls of that peer.
    pub(crate) peer: u64,
    pub(crate) number: u32,
    /// Where the peer is.
    pub(crate) host: Option<Host>,
    pub(crate) call: Bytes,
}

/// In the order in which they were taken.
#[derive(Drop)]
pub(crate) struct OpenCalls {
    calls: Vec<OpenCall>,
    ghost few: { length calls.items ≤ MOST_OPEN },
}

impl OpenCalls {
    pub(crate) fn new(alloc: Global) -> OpenCalls
        ensures { result.calls.items ≡ [] }
    {
        OpenCalls {
            calls: Vec::new(alloc),
        }
    }

    /// Puts a call behind the others, or says that there is no room for it.
    pub(crate) fn add(&mut self, call: OpenCall) -> Result<(), NoMemory>
        ensures ok { OnOk result (self.new.calls.items ≡ self.old.calls.items ++ call ∷ []) }
        ensures err { OnErr result (self.new.calls.items ≡ self.old.calls.items) }
    {
        if self.calls.len() >= MOST_OPEN {
            return Err(NoMemory);
        }
        self.calls.push(call)?;
        Ok(())
    }

    /// Takes the first call of a peer that has this number; the others stay.
    pub(crate) fn take(&mut self, peer: u64, number: u32) -> Option<OpenCall>
        ensures some { IfSome result (λ call. Takes peer number self.old.calls.items call self.new.calls.items) }
        ensures none { IfNone result (position (is_call peer number) self.old.calls.items ≡ None) }
        ensures same { IfNone result (self.new.calls.items ≡ self.old.calls.items) }
    {
        let place = place_of(&self.calls, peer, number)?;
        Some(self.calls.remove(place))
    }
}

/// The place of the first call of a peer that has this number.
fn place_of(calls: &[OpenCall], peer: u64, number: u32) -> Option<usize>
    ensures place { result ≡ position (is_call peer number) calls.now }
    ensures bound { IfSome result (λ i. i < length calls.now) }
{
    calls
        .iter()
        .position(|call| call.peer == peer && call.number == number)
}
