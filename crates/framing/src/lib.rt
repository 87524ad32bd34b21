// A message: a header, and the octets of an element behind it.
#![tactic(auto)]

ghost use Rattle.framing.specs.Messages.{sized, Writes, Back};

use answers::Fault;
use bytesable::Bytesable;
use networking::MessageHeader;

// Fills `out` with the header, its length set to the element's, and then the element. Header and element are two arguments: a
// struct of both would be made for the call and taken apart in it.
#[tactic(auto, using(crate::proofs::Joining::lengths))]
pub fn write_message<T: Bytesable>(
    header: &MessageHeader,
    element: &T,
    out: &mut [u8],
) -> Result<(), Fault>
    ensures after { Writes header.now (T.bytes element.now) out.old result out.new }
    ensures back { Back header.now (T.bytes element.now) result out.new }
{
    let length = element.length_in_bytes();
    if length == 0 {
        return Err(Fault::PayloadLength);
    }
    if out.len().checked_sub(MessageHeader::BYTES) != Some(length) {
        return Err(Fault::Mismatched);
    }
    // `as`: the proof shows that nothing is lost, and `try_from` would test it again.
    let sized = MessageHeader {
        length: length as u64,
        ..*header
    };
    let (front, payload) = out.split_at_mut(MessageHeader::BYTES);
    sized.write_to(front)?;
    element.into_bytes(payload)
}
