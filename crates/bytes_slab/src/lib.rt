// Slabs: where a source or the far end writes into a region.
#![tactic(auto)]

mod capacity;
mod slab;
mod writing;

pub use slab::BytesSlab;
