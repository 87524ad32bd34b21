// Pieces of a region's buffers, and how many pieces each buffer has.
#![tactic(auto)]

mod cutting;
mod free;
mod leases;
mod leasing;
mod piece;

pub use free::FreeBuffers;
pub use leases::Leases;
pub use piece::Piece;
