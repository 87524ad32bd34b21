// What is printed of an answer.
ghost use Rattle.std.specs.Prelude.{◌≡◌, IfOk, Some, string_bytes, to_bits};
ghost use Rattle.std.specs.Float.{binary64};
ghost use Rattle.script.specs.Shown.{element_shown, shown_of};

use crate::answer::Answer;
use crate::element::Element;
use bytesable::Tweak;
use networking::MessageHeader;
use std::alloc::{AllocError, Global};
use std::fmt;
use std::num::f64_to_bits_with_nan;
use words::{HexBytes, HexPattern};

impl Answer {
    // The line that is printed, with no end of line; nothing where the line is passed over.
    pub fn text(&self, heap: Global) -> Result<String, AllocError>
        ensures answer { IfOk result (λ t. string_bytes t ≡ shown_of self.now) }
    {
        self.to_string(heap)
    }
}

impl fmt::Display for Answer {
    ghost output = { λ a. Some (shown_of a) };

    fn fmt<W: fmt::Write>(&self, f: &mut fmt::Formatter<W>) -> fmt::Result {
        match self {
            Answer::Nothing => Ok(()),
            Answer::Unreadable(None) => write!(f, "unreadable"),
            Answer::Unreadable(Some(verb)) => write!(f, "{verb} unreadable"),
            Answer::Message(octets) => write!(f, "message {}", HexBytes(octets.as_slice())),
            Answer::Header(None) => write!(f, "read absent"),
            Answer::Header(Some(header)) => {
                let MessageHeader {
                    channel,
                    source,
                    target_lower,
                    target_upper,
                    length,
                    seqno,
                } = header;
                write!(
                    f,
                    "read {channel} {source} {target_lower} {target_upper} {length} {seqno}"
                )
            }
            Answer::Element(element) => write!(f, "element {element}"),
            Answer::Refused(verb, fault) => write!(f, "{verb} refused {}", fault.number()),
        }
    }
}

impl fmt::Display for Element {
    ghost output = { λ e. Some (element_shown e) };

    fn fmt<W: fmt::Write>(&self, f: &mut fmt::Formatter<W>) -> fmt::Result {
        match self {
            Element::Ray(ray) => write!(f, "ray {} {} {}", ray.surface, ray.height, ray.path),
            Element::Tweak(Tweak::Thickness(x)) => write!(f, "thickness {}", pattern(*x)),
            Element::Tweak(Tweak::Tilt(x, y)) => write!(f, "tilt {} {}", pattern(*x), pattern(*y)),
            Element::Tweak(Tweak::Index(x)) => write!(f, "index {}", pattern(*x)),
            Element::Block(block) => write!(f, "block {}", HexBytes(block.as_bytes())),
        }
    }
}

// A float is printed by its pattern.
fn pattern(x: f64) -> HexPattern
    ensures { result.0 ≡ to_bits binary64 x }
{
    HexPattern(f64_to_bits_with_nan(x))
}
