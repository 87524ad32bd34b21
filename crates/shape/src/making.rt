ghost use Rattle.std.specs.Prelude.{◌≡◌, ◌*◌, length, Decides};
ghost use Rattle.shape.specs.Figures.{ShapeOf, SourcesOf, TargetsOf, Covers, place};

use crate::shape::{Shape, Sources, Targets};
use answers::Fault;

impl Shape {
    // Exponents are 7 to 12, buffers 2 to 16.
    pub fn new(exponent: u32, buffers: usize) -> Result<Shape, Fault>
        ensures answer { ShapeOf exponent buffers result }
    {
        if !(7..=12).contains(&exponent) || !(2..=16).contains(&buffers) {
            return Err(Fault::FigureOutOfBounds);
        }
        Ok(Shape {
            exponent,
            size: 1 << exponent,
            buffers,
        })
    }

    // Whether a region is as long as the buffers. A region is lent to each call as plain bytes, so it is no type of its own:
    // each call that reads or writes it asks this, and refuses it by number.
    pub fn holds(&self, region: &[u8]) -> bool
        ensures answer { Decides result (length region.now ≡ self.now.buffers * self.now.size) }
    {
        region.len() == self.buffers * self.size
    }
}

impl Sources {
    // Sources are 1 to 4, and the region has two buffers more at least.
    pub fn new(shape: Shape, count: usize) -> Result<Sources, Fault>
        ensures answer { SourcesOf shape count result }
    {
        if !(1..=4).contains(&count) || shape.buffers < count + 2 {
            return Err(Fault::FigureOutOfBounds);
        }
        Ok(Sources { shape, count })
    }
}

impl Targets {
    // Targets are 1 to 4, from an index of 0 to 65,535.
    pub fn new(first: u64, count: u64) -> Result<Targets, Fault>
        ensures answer { TargetsOf first count result }
    {
        if first > 65535 || !(1..=4).contains(&count) {
            return Err(Fault::FigureOutOfBounds);
        }
        Ok(Targets { first, count })
    }

    // Whether the range from `lower` to `upper - 1` has an index, and each is a target's.
    pub fn covers(&self, lower: u64, upper: u64) -> bool
        ensures answer { Decides result (Covers self.now lower upper) }
    {
        lower < upper && self.first <= lower && upper <= self.first + self.count
    }

    // The place of a target among all, by its index.
    pub fn place(&self, index: u64) -> Option<usize>
        ensures answer { result ≡ place self.now index }
    {
        let place = index.checked_sub(self.first)?;
        // `as`: the proof shows that nothing is lost, and `try_from` would test it again.
        (place < self.count).then_some(place as usize)
    }
}
