ghost use Rattle.std.specs.Prelude.{◌≡◌, ◌+◌, ◌*◌};
ghost use Rattle.std.specs.Option.{option_map};
ghost use Rattle.pieces.specs.Pieces.{span};
ghost use Rattle.bytes_slab.specs.Slabs.{seen, Begins, Shows, room, grown, extracted, shortened};

use crate::slab::BytesSlab;
use answers::Fault;
use pieces::Piece;
use shape::Shape;
use std::ops::Range;

impl BytesSlab {
    // A slab with no valid byte, at the front of a buffer.
    pub fn new(shape: Shape, buffer: usize) -> Result<BytesSlab, Fault>
        ensures answer { Begins shape buffer result }
    {
        if buffer >= shape.buffers {
            return Err(Fault::FigureOutOfBounds);
        }
        Ok(BytesSlab {
            shape,
            buffer,
            begin: 0,
            end: 0,
        })
    }

    // The valid bytes. Not by a piece: a piece has a byte, and these may be none.
    pub fn valid<'a>(&self, region: &'a [u8]) -> Result<&'a [u8], Fault>
        ensures answer { Shows (seen self.now) region.now result }
    {
        if !self.shape.holds(region) {
            return Err(Fault::RegionLength);
        }
        let at = self.buffer * self.shape.size;
        Ok(&region[at + self.begin..at + self.end])
    }

    // The places of the region that may be written.
    pub fn empty(&self) -> Range<usize>
        ensures begin { result.start ≡ self.now.buffer * self.now.shape.size + self.now.end }
        ensures end { result.end ≡ self.now.buffer * self.now.shape.size + self.now.shape.size }
    {
        let at = self.buffer * self.shape.size;
        at + self.end..at + self.shape.size
    }

    // Makes the next `count` bytes valid; false, and nothing changes, where the buffer has not so many. A `bool`, and no
    // `Result`: no refusal has a number for it.
    pub fn make_valid(&mut self, count: usize) -> bool
        ensures answer { result ≡ room (seen self.old) count }
        ensures after { seen self.new ≡ grown (seen self.old) count }
    {
        if self.shape.size - self.end < count {
            return false;
        }
        self.end += count;
        true
    }

    // Takes the first `count` valid bytes off as a piece; none where there are not so many, or the count is 0.
    pub fn extract(&mut self, count: usize) -> Option<Piece>
        ensures answer { option_map span result ≡ extracted (seen self.old) count }
        ensures after { seen self.new ≡ shortened (seen self.old) count }
    {
        if !(1..=self.end - self.begin).contains(&count) {
            return None;
        }
        let piece = Piece {
            buffer: self.buffer,
            start: self.begin,
            len: count,
        };
        self.begin += count;
        Some(piece)
    }
}
