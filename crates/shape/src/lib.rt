// The figures of a link: those out of bounds are refused where they are made, and nowhere else.
#![tactic(auto)]

mod making;
mod shape;

pub use shape::{Shape, Sources, Targets};
