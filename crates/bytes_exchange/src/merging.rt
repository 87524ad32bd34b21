ghost use Rattle.std.specs.Prelude.{◌≡◌, Some};
ghost use Rattle.std.specs.Option.{option_map};
ghost use Rattle.pieces.specs.Pieces.{span};
ghost use Rattle.bytes_exchange.specs.Queues as queues;
ghost use Rattle.bytes_exchange.specs.Queues.{entry, entries, continued, Extends};

use crate::entry::{Extended, MergeQueue, QueueEntry};
use answers::Fault;
use pieces::Piece;

impl QueueEntry {
    // What it becomes with a piece behind it, where they merge.
    fn merge(self, piece: Piece) -> Option<QueueEntry>
        ensures answer { option_map entry result ≡ continued (Some (entry self)) (span piece) }
    {
        match self {
            QueueEntry::Resident(resident) => resident.merge(piece).map(QueueEntry::Resident),
            QueueEntry::Paged(_) => None,
        }
    }
}

impl MergeQueue {
    // What the last entry becomes with a piece behind it, where they merge.
    fn grown(&self, piece: Piece) -> Option<QueueEntry>
        ensures answer { option_map entry result ≡ queues.grown (entries self.now) (span piece) }
    {
        self.entries.back()?.merge(piece)
    }

    // A piece more at the back: merged with a resident last entry that it continues, else an entry of its own. A queue of
    // 12 entries refuses it, though it would merge.
    pub fn extend(&mut self, piece: Piece) -> Result<Extended, Fault>
        ensures after { Extends (span piece) (entries self.old) result (entries self.new) }
    {
        let len = self.entries.len();
        if len >= 12 {
            return Err(Fault::QueueFull);
        }
        if let Some(merged) = self.grown(piece) {
            let _ = self.replace(len.saturating_sub(1), merged);
            return Ok(Extended::Merged);
        }
        self.entries
            .push_back(QueueEntry::Resident(piece))
            .map_err(|_| Fault::QueueFull)?;
        Ok(Extended::Appended)
    }
}
