use fixed::Fixed;
use pieces::Piece;

// An entry of a queue: bytes resident in the region, or the handle of a chunk that a store keeps. An enum has no Model, so `entry`
// stands in each clause.
#[derive(Clone, Copy, Debug, PartialEq, Eq, Hash)]
pub enum QueueEntry {
    Resident(Piece),
    Paged(u64),
}

// A queue of up to 12 entries, front first. No Model, since the table in it has none.
#[derive(Clone, Copy)]
pub struct MergeQueue {
    pub entries: Fixed<QueueEntry, 12>,
}

// What became of a piece that a queue was extended by.
#[derive(Clone, Copy, Debug, PartialEq, Eq, Hash)]
pub enum Extended {
    // It is a part of the last entry: its lease ends.
    Merged,
    // It is an entry of its own.
    Appended,
}
