// Whole numbers as octets.
ghost use Rattle.std.specs.Int.{w64};
ghost use Rattle.std.proofs.Common.{of_z};
ghost use Rattle.octets.specs.Octets.{RoundTrip};

use crate::number::{Number, octets_at, put};
use answers::Fault;

// This impl and the next only name their type's own methods: of a type parameter `ToBytes` of num_traits says no octets.
impl Number for u32 {
    ghost width = { 4 };

    ghost pattern = { λ x. x };

    #[tactic(auto, using(crate::proofs::Spelling::spelled))]
    fn write_at(self, out: &mut [u8], at: usize) -> Result<(), Fault> {
        put(out, at, &u32::to_be_bytes(self))
    }

    fn read_at(bytes: &[u8], at: usize) -> Option<u32> {
        let octets = octets_at(bytes, at)?;
        Some(u32::from_be_bytes(octets))
    }
}

impl Number for u64 {
    ghost width = { 8 };

    ghost pattern = { λ x. x };

    #[tactic(auto, using(crate::proofs::Spelling::spelled))]
    fn write_at(self, out: &mut [u8], at: usize) -> Result<(), Fault> {
        put(out, at, &u64::to_be_bytes(self))
    }

    fn read_at(bytes: &[u8], at: usize) -> Option<u64> {
        let octets = octets_at(bytes, at)?;
        Some(u64::from_be_bytes(octets))
    }
}

// In two's complement.
impl Number for i64 {
    ghost width = { 8 };

    ghost pattern = { of_z w64 };

    fn write_at(self, out: &mut [u8], at: usize) -> Result<(), Fault> {
        self.cast_unsigned().write_at(out, at)
    }

    fn read_at(bytes: &[u8], at: usize) -> Option<i64> {
        let pattern = u64::read_at(bytes, at)?;
        Some(pattern.cast_signed())
    }
}

// Both ways of reading octets as a number, of every width, are inverse: the theorem is this call's contract.
pub fn round_trip_holds() -> bool
    ensures { RoundTrip }
{
    true
}
