// House fields: a tag of one octet, a length of two, and the content.
ghost use Rattle.std.specs.Prelude.{◌≡◌, ◌+◌, ◌≤◌, true, ◌++◌, length, is_ok, Decides};
ghost use Rattle.std.proofs.Math.Seq.{paste};
ghost use Rattle.octets.specs.Octets.{octets, part, Reads};
ghost use Rattle.bytesable.specs.Fields.{head};

use answers::Fault;
use octets::{Number, put};

// Where a field stands among an element's octets, its tag, and how many octets its content has.
#[derive(Clone, Copy, Debug, PartialEq, Eq, Hash)]
pub(crate) struct Field {
    pub(crate) at: usize,
    pub(crate) tag: u8,
    pub(crate) size: u8,
}

impl Field {
    // Writes the field over `out`: its tag, its length, and the number that its content begins with.
    pub(crate) fn put<N: Number + Drop>(self, out: &mut [u8], number: N) -> Result<(), Fault>
        requires { self.at + (3 + N.Number.width) ≤ length out.old }
        ensures after { out.new ≡ paste out.old self.at (head self.tag self.size ++ octets N.Number.width (N.Number.pattern number)) (length (head self.tag self.size ++ octets N.Number.width (N.Number.pattern number))) }
        ensures granted { is_ok result ≡ true }
    {
        put(out, self.at, &[self.tag, 0, self.size])?;
        number.write_at(out, self.at + 3)
    }

    // Whether the tag and the length of the field stand in `bytes` at its place.
    fn has_head(self, bytes: &[u8]) -> bool
        ensures { Decides result (part self.at 3 bytes.now ≡ head self.tag self.size) }
    {
        bytes
            .get(self.at..)
            .is_some_and(|rest| rest.starts_with(&[self.tag, 0, self.size]))
    }

    // The number that the content begins with, where the tag and the length stand there.
    pub(crate) fn read<N: Number>(self, bytes: &[u8]) -> Option<N>
        ensures answer { Reads (λ x. head self.tag self.size ++ octets N.Number.width (N.Number.pattern x)) (part self.at (3 + N.Number.width) bytes.now) result }
    {
        if !self.has_head(bytes) {
            return None;
        }
        N::read_at(bytes, self.at + 3)
    }
}
