ghost use Rattle.std.specs.Prelude.{◌<◌, ◌≤◌};

use shape::Shape;

// A working buffer of a region. Its bytes from `begin` to `end - 1` are valid; those behind are empty, and may be written. No
// Model, though `seen` then stands in each clause, for the reason of `Piece`: tried, and what holds a slab could be copied less.
#[derive(Clone, Copy, Debug, PartialEq, Eq, Hash)]
pub struct BytesSlab {
    pub shape: Shape,
    pub buffer: usize,
    pub begin: usize,
    pub end: usize,
    ghost known: { buffer < shape.buffers },
    ghost order: { begin ≤ end },
    ghost within: { end ≤ shape.size },
}
