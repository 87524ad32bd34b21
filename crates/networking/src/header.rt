// The header in front of each message's payload.
ghost use Rattle.std.specs.Prelude.{◌≡◌, ℕ, ◌+◌, ◌≤◌, List, ◌++◌, length, Some, OnOk, ◌==◌};
ghost use Rattle.answers.specs.Faults.{Fills};
ghost use Rattle.networking.specs.Headers.{octets_of, fields_of, read_of, closing, Stands, Closes};

use answers::Fault;
use octets::Number;

// Which typed channel a payload is for, the workers that it comes from and goes to, and how many bytes it has.
#[derive(Clone, Copy, Debug, Default, PartialEq, Eq, Hash)]
pub struct MessageHeader {
    // Index of the channel.
    pub channel: u64,
    // Index of the worker that sends.
    pub source: u64,
    // Lower bound of the indices of the workers that receive.
    pub target_lower: u64,
    // Upper bound of those indices, itself not among them.
    pub target_upper: u64,
    // Number of bytes in the payload.
    pub length: u64,
    // Sequence number.
    pub seqno: u64,
}

impl MessageHeader {
    // How many octets a header has.
    pub const BYTES: usize = 48;

    // The six numbers at the front of `bytes`, whether the payload is there or not.
    pub fn read(bytes: &[u8]) -> Option<MessageHeader>
        ensures answer { result ≡ fields_of bytes.now }
        ensures again { Stands result bytes.now }
    {
        Some(MessageHeader {
            channel: u64::read_at(bytes, 0)?,
            source: u64::read_at(bytes, 8)?,
            target_lower: u64::read_at(bytes, 16)?,
            target_upper: u64::read_at(bytes, 24)?,
            length: u64::read_at(bytes, 32)?,
            seqno: u64::read_at(bytes, 40)?,
        })
    }

    // The header at the front of `bytes`, once it and its payload are there.
    pub fn try_read(bytes: &[u8]) -> Option<MessageHeader>
        ensures answer { result ≡ read_of bytes.now }
        ensures again { Stands result bytes.now }
    {
        // `as`: there is no `From` from usize to u128, and the proof shows that nothing is lost.
        MessageHeader::read(bytes).filter(|header| bytes.len() as u128 >= header.required_bytes())
    }

    // Fills `out` with the header.
    #[tactic(auto, using(crate::proofs::Framing::lengths))]
    pub fn write_to(&self, out: &mut [u8]) -> Result<(), Fault>
        ensures after { Fills (octets_of self.now) out.old result out.new }
        ensures back { OnOk result ((rest : List ℕ) → self.now.length ≤ length rest → read_of (out.new ++ rest) ≡ Some self.now) }
    {
        if out.len() != MessageHeader::BYTES {
            return Err(Fault::Mismatched);
        }
        self.channel.write_at(out, 0)?;
        self.source.write_at(out, 8)?;
        self.target_lower.write_at(out, 16)?;
        self.target_upper.write_at(out, 24)?;
        self.length.write_at(out, 32)?;
        self.seqno.write_at(out, 40)?;
        Ok(())
    }

    // How many bytes the header and its payload have, as a whole number: a u64 would wrap.
    pub fn required_bytes(&self) -> u128
        ensures answer { result ≡ 48 + self.now.length }
    {
        let length = self.length;
        // `as`: as above.
        self.header_bytes() as u128 + u128::from(length)
    }

    // How many bytes the header has.
    pub fn header_bytes(&self) -> usize
        ensures answer { result ≡ 48 }
    {
        MessageHeader::BYTES
    }

    // Whether no message follows.
    pub fn closes(&self) -> bool
        ensures answer { result ≡ (self.now.length == 0) }
    {
        self.length == 0
    }
}

const CLOSING_HEADER: [u8; 48] = [0; 48];

// What stands behind the last message of a stream.
pub fn closing_header() -> [u8; 48]
    ensures answer { result ≡ closing }
    ensures closes { Closes result }
{
    CLOSING_HEADER
}
