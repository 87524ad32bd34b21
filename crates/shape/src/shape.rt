ghost use Rattle.std.specs.Prelude.{◌≡◌, ◌+◌, ◌^◌, ◌≤◌};

// The shape of a region: some buffers, each of 2 to the power of the exponent bytes.
#[derive(Clone, Copy, Debug, PartialEq, Eq, Hash)]
pub struct Shape {
    pub exponent: u32,
    pub size: usize,
    pub buffers: usize,
    ghost least: { 7 ≤ exponent },
    ghost most: { exponent ≤ 12 },
    ghost power: { size ≡ 2 ^ exponent },
    ghost roomy: { 128 ≤ size },
    ghost bounded: { size ≤ 4096 },
    ghost some: { 2 ≤ buffers },
    ghost few: { buffers ≤ 16 },
}

// How many sources a near end has, and its region: two buffers at least are above those that the sources begin with.
#[derive(Clone, Copy, Debug, PartialEq, Eq, Hash)]
pub struct Sources {
    pub shape: Shape,
    pub count: usize,
    ghost some: { 1 ≤ count },
    ghost few: { count ≤ 4 },
    ghost spare: { count + 2 ≤ shape.buffers },
}

// How many targets there are, and the index of the first.
#[derive(Clone, Copy, Debug, PartialEq, Eq, Hash)]
pub struct Targets {
    pub first: u64,
    pub count: u64,
    ghost low: { first ≤ 65535 },
    ghost some: { 1 ≤ count },
    ghost few: { count ≤ 4 },
}
