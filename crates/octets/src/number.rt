// What a number of a fixed width is as octets.
ghost use Rattle.std.specs.Prelude.{◌≡◌, ℕ, ◌+◌, ◌<◌, ◌≤◌, length, MatchOption};
ghost use Rattle.octets.specs.Octets.{octets, part, Lays, Reads};

use answers::Fault;

// A number that is written as octets, high octet first. A part and a place in it go side by side, with no cursor around them: a
// format is a table of places, and each call reads as a row of it.
pub trait Number: Sized {
    // How many octets it has.
    ghost width: { ℕ };

    // The whole number that its octets spell.
    ghost pattern: { Self → ℕ };

    // Writes its octets over those of `out` from `at` on.
    fn write_at(self, out: &mut [u8], at: usize) -> Result<(), Fault>
        ensures after { Lays (octets width (pattern self)) at out.old result out.new };

    // The number whose octets stand in `bytes` from `at` on, where there is one.
    fn read_at(bytes: &[u8], at: usize) -> Option<Self>
        ensures answer { Reads (λ x. octets width (pattern x)) (part at width bytes.now) result };
}

// The `N` octets of `bytes` from `at` on, where they are there.
pub(crate) fn octets_at<const N: usize>(bytes: &[u8], at: usize) -> Option<[u8; N]>
    ensures { MatchOption result (length bytes.now < at + N) (λ os. (at + N ≤ length bytes.now) × (os ≡ part at N bytes.now)) }
{
    bytes.get(at..)?.first_chunk::<N>().copied()
}

// Writes `part` over `out` from `at` on.
pub fn put(out: &mut [u8], at: usize, part: &[u8]) -> Result<(), Fault>
    ensures after { Lays part.now at out.old result out.new }
{
    if at > out.len() || part.len() > out.len() - at {
        return Err(Fault::Mismatched);
    }
    // By index: what is written through `get_mut` is not known of the whole.
    out[at..at + part.len()].copy_from_slice(part);
    Ok(())
}
