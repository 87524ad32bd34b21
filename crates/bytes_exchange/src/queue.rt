ghost use Rattle.std.specs.Prelude.{◌≡◌, ◌==◌, ◌≤◌, [], length, drop, sum_by, slice_set};
ghost use Rattle.std.specs.List.{slice_get};
ghost use Rattle.std.specs.Option.{option_map};
ghost use Rattle.bytes_exchange.specs.Queues.{entry, entries};
ghost use Rattle.bytes_exchange.specs.Queues as queues;

use crate::entry::{MergeQueue, QueueEntry};
use fixed::Fixed;

impl QueueEntry {
    // How many of its bytes are resident.
    fn resident_len(&self) -> usize
        ensures answer { result ≡ queues.resident_len (entry self.now) }
        ensures few { result ≤ 4096 }
    {
        match self {
            QueueEntry::Resident(piece) => piece.len,
            QueueEntry::Paged(_) => 0,
        }
    }
}

impl Default for MergeQueue {
    ghost is_default = { λ q. entries q ≡ [] };

    fn default() -> MergeQueue {
        MergeQueue::new()
    }
}

impl MergeQueue {
    // An empty queue.
    pub fn new() -> MergeQueue
        ensures answer { entries result ≡ [] }
    {
        MergeQueue {
            entries: Fixed::new(QueueEntry::Paged(0)),
        }
    }

    // How many entries there are.
    pub fn len(&self) -> usize
        ensures answer { result ≡ length (entries self.now) }
    {
        self.entries.len()
    }

    pub fn is_empty(&self) -> bool
        ensures answer { result ≡ (length (entries self.now) == 0) }
    {
        self.entries.is_empty()
    }

    // The entry at a place, the front's being 0.
    pub fn get(&self, place: usize) -> Option<QueueEntry>
        ensures answer { option_map entry result ≡ slice_get (entries self.now) place }
    {
        self.entries.get(place)
    }

    pub fn front(&self) -> Option<QueueEntry>
        ensures answer { option_map entry result ≡ slice_get (entries self.now) 0 }
    {
        self.get(0)
    }

    // Takes the front entry.
    pub fn pop_front(&mut self) -> Option<QueueEntry>
        ensures answer { option_map entry result ≡ slice_get (entries self.old) 0 }
        ensures after { entries self.new ≡ drop 1 (entries self.old) }
    {
        self.entries.pop_front()
    }

    // Another entry at a place, where there is one; answers the one that stood there.
    pub fn replace(&mut self, place: usize, other: QueueEntry) -> Option<QueueEntry>
        ensures answer { option_map entry result ≡ slice_get (entries self.old) place }
        ensures after { entries self.new ≡ slice_set (entries self.old) place (entry other) }
    {
        self.entries.replace(place, other)
    }

    // How many bytes of the queue are resident.
    pub fn resident_bytes(&self) -> usize
        ensures answer { result ≡ sum_by queues.resident_len (entries self.now) }
    {
        self.entries
            .as_slice()
            .iter()
            .map(QueueEntry::resident_len)
            .sum()
    }
}
