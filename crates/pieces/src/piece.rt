ghost use Rattle.std.specs.Prelude.{◌+◌, ◌<◌, ◌≤◌};

// A part of a buffer, of one byte at least: one lease of the buffer. No Model, though `span` then stands in each clause: tried,
// and a Copy type that holds a piece, as a queue's entry does, may then be passed by value but once.
#[derive(Clone, Copy, Debug, PartialEq, Eq, Hash)]
pub struct Piece {
    pub buffer: usize,
    pub start: usize,
    pub len: usize,
    ghost known: { buffer < 16 },
    ghost some: { 1 ≤ len },
    ghost ends: { start + len ≤ 4096 },
}
