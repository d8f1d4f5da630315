//! Laws of writes on their way, for cells of every size: what stands behind a write in flight, and what another server takes of it. Laws
//! alone.
#![tactic(auto)]

mod laws;

pub use laws::law_writes_stand;
