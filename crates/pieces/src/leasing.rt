ghost use Rattle.std.specs.Prelude.{◌≡◌, length, replicate, None, MatchOption};
ghost use Rattle.std.specs.List.{slice_get};
ghost use Rattle.pieces.specs.Counts.{counts, more, less, counted};

use crate::leases::Leases;
use crate::piece::Piece;
use fixed::Fixed;
use shape::Shape;

impl Leases {
    // No piece in any buffer of a region.
    pub fn new(shape: &Shape) -> Leases
        ensures answer { counts result ≡ replicate shape.now.buffers 0 }
    {
        Leases {
            counts: Fixed::filled(0, shape.buffers),
        }
    }

    // How many buffers the region has.
    pub fn buffers(&self) -> usize
        ensures answer { result ≡ length (counts self.now) }
    {
        self.counts.len()
    }

    // How many pieces a buffer has, if it is one of the region's.
    pub fn count(&self, buffer: usize) -> Option<u16>
        ensures answer { result ≡ slice_get (counts self.now) buffer }
    {
        self.counts.get(buffer)
    }

    // Another count for a piece's buffer, where the buffer has one and it can change so; answers it then. What it leaves is
    // what both its callers promise.
    fn recount<F: FnOnce(u16) -> Option<u16>>(&mut self, piece: Piece, change: F) -> Option<u16>
        requires { F.IsAlwaysCallable change }
        ensures answer { MatchOption (slice_get (counts self.old) piece.buffer) (result ≡ None) (λ n. F.post change n result) }
        ensures after { counts self.new ≡ counted (counts self.old) piece.buffer result }
    {
        let count = self.counts.get(piece.buffer).and_then(change)?;
        let _ = self.counts.replace(piece.buffer, count);
        Some(count)
    }

    // A piece more, by cutting or copying; answers its buffer's count then. None where the region has no such
    // buffer, or its count cannot rise: nothing changes then.
    pub fn add(&mut self, piece: Piece) -> Option<u16>
        ensures answer { result ≡ more (slice_get (counts self.old) piece.buffer) }
        ensures after { counts self.new ≡ counted (counts self.old) piece.buffer result }
    {
        self.recount(piece, |count| count.checked_add(1))
    }

    // A piece less, by merging or giving back; answers its buffer's count then. None where the buffer has no
    // piece: nothing changes then.
    pub fn end(&mut self, piece: Piece) -> Option<u16>
        ensures answer { result ≡ less (slice_get (counts self.old) piece.buffer) }
        ensures after { counts self.new ≡ counted (counts self.old) piece.buffer result }
    {
        self.recount(piece, |count| count.checked_sub(1))
    }
}
