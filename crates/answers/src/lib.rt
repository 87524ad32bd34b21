// Why a call is refused: one case for each number of docs/ANSWERS.md.
#![tactic(auto)]

ghost use Rattle.std.specs.Prelude.{◌≡◌};
ghost use Rattle.answers.specs.Faults.{number_of, place_of};

use thiserror::Error;

#[derive(Clone, Copy, Debug, PartialEq, Eq, Hash, Error)]
pub enum Fault {
    #[error("an opening figure is out of bounds")]
    FigureOutOfBounds,
    #[error("the lent region is not as long as its buffers")]
    RegionLength,
    #[error("the store holds a chunk, or the stream holds a byte or is shut")]
    NotFresh,
    #[error("the handle or puller names nothing that is open here, or handle and pusher differ")]
    NotOpen,
    #[error("the range of the pusher is empty or leaves the targets")]
    PusherRange,
    #[error("the payload has no byte, or more than a buffer holds behind a header")]
    PayloadLength,
    #[error("the queue of the source is full")]
    QueueFull,
    #[error("too few buffers are free")]
    NoFreeBuffer,
    #[error("the piece in hand is of another source")]
    OtherSourceInHand,
    #[error("a source is open, a queue has an entry, or a piece is in hand")]
    Unfinished,
    #[error("the identifier of the channel is not above all opened at the target")]
    IdentifierNotAbove,
    #[error("the target has no place for another channel")]
    TableFull,
    #[error("no source or target has the number")]
    NoSuchIndex,
    #[error("the payload is no value of the type wanted")]
    NoValue,
    #[error("the stream ended after {0} bytes taken whole, with no closing header")]
    Torn(u64),
    #[error("after {0} bytes taken whole, a byte follows the closing header")]
    BehindClosing(u64),
    #[error("after {0} bytes taken whole stands a header with an overlong length or a bad range")]
    BadHeader(u64),
    #[error("the store has too few units for an allowed chunk")]
    NoUnits,
    #[error("a failing fetch is due")]
    FetchFailed,
    #[error("a lent part of another length, an unknown chunk, or a chunk of no allowed length")]
    Mismatched,
}

impl Fault {
    // The number by which the refusal is known. It tells less than the fault, which may carry a place: so this is no `From`.
    pub fn number(self) -> u8
        ensures answer { result ≡ number_of self }
    {
        match self {
            Fault::FigureOutOfBounds => 1,
            Fault::RegionLength => 2,
            Fault::NotFresh => 3,
            Fault::NotOpen => 4,
            Fault::PusherRange => 5,
            Fault::PayloadLength => 6,
            Fault::QueueFull => 7,
            Fault::NoFreeBuffer => 8,
            Fault::OtherSourceInHand => 9,
            Fault::Unfinished => 10,
            Fault::IdentifierNotAbove => 11,
            Fault::TableFull => 12,
            Fault::NoSuchIndex => 13,
            Fault::NoValue => 14,
            Fault::Torn(_) => 15,
            Fault::BehindClosing(_) => 16,
            Fault::BadHeader(_) => 17,
            Fault::NoUnits => 18,
            Fault::FetchFailed => 19,
            Fault::Mismatched => 20,
        }
    }

    // The bytes taken whole before the fault, where it carries them.
    pub fn place(self) -> Option<u64>
        ensures answer { result ≡ place_of self }
    {
        match self {
            Fault::Torn(at) | Fault::BehindClosing(at) | Fault::BadHeader(at) => Some(at),
            _ => None,
        }
    }
}
