// Numbers as octets, high octet first.
#![tactic(auto)]

mod float;
mod integer;
mod number;

pub use float::standard_holds;
pub use integer::round_trip_holds;
pub use number::{Number, put};
