ghost use Rattle.std.specs.Prelude.{◌≡◌};
ghost use Rattle.std.specs.Option.{option_map};
ghost use Rattle.pieces.specs.Pieces.{span, piece, merged, front, rest, Reads};

use crate::piece::Piece;
use answers::Fault;
use shape::Shape;

impl Piece {
    // None where it has no byte, or where no buffer has it.
    pub fn new(buffer: usize, start: usize, len: usize) -> Option<Piece>
        ensures answer { option_map span result ≡ piece buffer start len }
    {
        let end = start.checked_add(len)?;
        if buffer >= 16 || len < 1 || end > 4096 {
            return None;
        }
        Some(Piece { buffer, start, len })
    }

    // Both as one, where they share the buffer and the other starts where this one ends.
    pub fn merge(self, next: Piece) -> Option<Piece>
        ensures answer { option_map span result ≡ merged (span self) (span next) }
    {
        if self.buffer != next.buffer || self.start + self.len != next.start {
            return None;
        }
        Some(Piece {
            buffer: self.buffer,
            start: self.start,
            len: self.len + next.len,
        })
    }

    // Its first `n` bytes, and those behind them.
    pub fn cut(self, n: usize) -> (Option<Piece>, Option<Piece>)
        ensures first { option_map span result.0 ≡ front n (span self) }
        ensures second { option_map span result.1 ≡ rest n (span self) }
    {
        if n == 0 {
            return (None, Some(self));
        }
        if n >= self.len {
            return (Some(self), None);
        }
        let first = Piece {
            buffer: self.buffer,
            start: self.start,
            len: n,
        };
        let second = Piece {
            buffer: self.buffer,
            start: self.start + n,
            len: self.len - n,
        };
        (Some(first), Some(second))
    }

    // Its bytes in a region.
    pub fn bytes<'a>(&self, shape: &Shape, region: &'a [u8]) -> Result<&'a [u8], Fault>
        ensures answer { Reads shape.now region.now (span self.now) result }
    {
        if !shape.holds(region) {
            return Err(Fault::RegionLength);
        }
        if self.buffer >= shape.buffers || self.start + self.len > shape.size {
            return Err(Fault::Mismatched);
        }
        let at = self.buffer * shape.size + self.start;
        Ok(&region[at..at + self.len])
    }
}
