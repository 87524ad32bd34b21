// Up to ninety-six octets.
ghost use Rattle.std.specs.Prelude.{◌≡◌, ◌<◌, [], length, MatchResult};
ghost use Rattle.answers.specs.Faults.{number_of};
ghost use Rattle.bytesable.specs.Blocks.{block_octets};

use crate::element::Bytesable;
use answers::Fault;
use fixed::Fixed;

// By a name of its own, since a const argument is a plain name.
const MOST: usize = Block::MOST;

#[derive(Clone, Copy)]
pub struct Block {
    octets: Fixed<u8, MOST>,
}

impl Block {
    // The most octets that a block has.
    pub const MOST: usize = 96;

    // A block of no octets.
    pub fn empty() -> Block
        ensures answer { block_octets result ≡ [] }
    {
        Block {
            octets: Fixed::new(0),
        }
    }

    // A block of these octets, unless they are too many.
    pub fn new(bytes: &[u8]) -> Result<Block, Fault>
        ensures answer { MatchResult result (λ b. bytes.now ≡ block_octets b) (λ e. (number_of e ≡ 14) × (96 < length bytes.now)) }
    {
        let octets = Fixed::from_slice(0, bytes).ok_or(Fault::NoValue)?;
        Ok(Block { octets })
    }

    // The octets. By this name, as `str` has it: `AsRef` would say in a ghost member what the clause says here.
    pub fn as_bytes(&self) -> &[u8]
        ensures answer { result.now ≡ block_octets self.now }
    {
        self.octets.as_slice()
    }
}

impl Default for Block {
    ghost is_default = { λ b. block_octets b ≡ [] };

    fn default() -> Block {
        Block::empty()
    }
}

impl TryFrom<&[u8]> for Block {
    type Error = Fault;

    ghost try_from_gives = { λ bytes r. MatchResult r (λ b. bytes.now ≡ block_octets b) (λ e. (number_of e ≡ 14) × (96 < length bytes.now)) };

    fn try_from(bytes: &[u8]) -> Result<Block, Fault> {
        Block::new(bytes)
    }
}

impl Bytesable for Block {
    ghost bytes = { block_octets };

    fn length_in_bytes(&self) -> usize {
        self.octets.len()
    }

    fn into_bytes(&self, out: &mut [u8]) -> Result<(), Fault> {
        if out.len() != self.octets.len() {
            return Err(Fault::Mismatched);
        }
        out.copy_from_slice(self.as_bytes());
        Ok(())
    }

    fn from_bytes(&mut self, from: &[u8]) -> Result<(), Fault> {
        *self = Block::new(from)?;
        Ok(())
    }

    // By the octets that are there: a derived `==` would read the unused places too.
    fn same(&self, other: &Block) -> bool {
        self.as_bytes() == other.as_bytes()
    }
}
