// What messages carry: elements that are written as octets and read again.
#![tactic(auto)]

mod block;
mod element;
mod field;
mod ray;
mod tweak;

pub use block::Block;
pub use element::Bytesable;
pub use ray::Ray;
pub use tweak::Tweak;
