// Floats as octets: the bit patterns of IEEE 754's binary64.
ghost use Rattle.octets.specs.Patterns.{pattern_of};
ghost use Rattle.octets.specs.Standard.{Standard};

use crate::number::Number;
use answers::Fault;
use std::num::{f64_from_bits_with_nan, f64_to_bits_with_nan};

// The one pattern in which a not-a-number is written.
const NOT_A_NUMBER: u64 = 0x7ff8_0000_0000_0000;
// The pattern of infinity: above it, the sign aside, lie those of a not-a-number.
const INFINITY: u64 = 0x7ff0_0000_0000_0000;

const SIGN: u64 = 0x8000_0000_0000_0000;

impl Number for f64 {
    ghost width = { 8 };

    ghost pattern = { pattern_of };

    fn write_at(self, out: &mut [u8], at: usize) -> Result<(), Fault> {
        f64_to_bits_with_nan(self).write_at(out, at)
    }

    // Of the patterns of a not-a-number only the written one is read.
    fn read_at(bytes: &[u8], at: usize) -> Option<f64> {
        let pattern = u64::read_at(bytes, at)?;
        if pattern % SIGN > INFINITY && pattern != NOT_A_NUMBER {
            return None;
        }
        Some(f64_from_bits_with_nan(pattern))
    }
}

// The patterns are those of the standard: the theorem is this call's contract.
pub fn standard_holds() -> bool
    ensures { Standard }
{
    true
}
