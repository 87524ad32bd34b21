// Queues of byte pieces that merge.
#![tactic(auto)]

mod entry;
mod merging;
mod queue;

pub use entry::{Extended, MergeQueue, QueueEntry};
