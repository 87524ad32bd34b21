// What the words of a message line spell. The allocator is passed beside them, as std passes it.
ghost use Rattle.std.specs.Prelude.{◌≡◌, ℕ, List, Some, None, vec_items, MatchOption, Float};
ghost use Rattle.std.specs.Option.{option_map};
ghost use Rattle.bytesable.specs.Rays.{ray_octets};
ghost use Rattle.script.specs.Spelled.{number_of, header_of, float_of, ray_spelled, one_spelled, two_spelled, bytes_alone, spelled_as, spelled_of, Gives, Means};

use crate::element::{Element, Form};
use crate::stop::Stop;
use bytesable::{Block, Ray, Tweak};
use networking::MessageHeader;
use std::alloc::Global;
use std::num::f64_from_bits_with_nan;
use words::{Words, bytes, pattern, signed, unsigned};

// A 64-bit number.
fn number(words: &mut Words<'_>) -> Option<u64>
    ensures answer { number_of words.old ≡ option_map (λ n. (n, words.new)) result }
{
    unsigned(words.next()?, u64::MAX)
}

// Channel, source, range and sequence number.
pub(crate) fn header(words: &mut Words<'_>) -> Option<MessageHeader>
    ensures answer { header_of words.old ≡ option_map (λ h. (h, words.new)) result }
{
    Some(MessageHeader {
        channel: number(words)?,
        source: number(words)?,
        target_lower: number(words)?,
        target_upper: number(words)?,
        length: 0,
        seqno: number(words)?,
    })
}

// The float of a pattern.
fn float(word: &str) -> Option<f64>
    ensures answer { result ≡ float_of word.now }
{
    pattern(word).map(|bits| f64_from_bits_with_nan(bits))
}

fn ray(words: &mut Words<'_>) -> Option<Ray>
    ensures answer { ray_spelled words.old ≡ option_map ray_octets result }
{
    // `as`: the bound makes the cast exact, and `try_from` would test it again.
    let surface = unsigned(words.next()?, u64::from(u32::MAX))? as u32;
    let height = signed(words.next()?)?;
    let path = signed(words.only()?)?;
    Some(Ray {
        surface,
        height,
        path,
    })
}

// One float alone.
fn one_float(words: &Words<'_>) -> Option<f64>
    ensures answer { (f : Float → List ℕ) → one_spelled f words.now ≡ option_map f result }
{
    float(words.only()?)
}

// Two floats alone.
fn two_floats(words: &mut Words<'_>) -> Option<(f64, f64)>
    ensures answer { (f : Float → Float → List ℕ) → two_spelled f words.old ≡ option_map (λ p. f p.0 p.1) result }
{
    let first = float(words.next()?)?;
    let second = float(words.only()?)?;
    Some((first, second))
}

// The bytes of one word alone.
pub(crate) fn bytes_alone(heap: Global, words: &Words<'_>) -> Result<Vec<u8>, Stop>
    ensures answer { Gives vec_items (bytes_alone words.now) result }
{
    let word = words.only().ok_or(Stop::Unreadable)?;
    bytes(heap, word)?.ok_or(Stop::Unreadable)
}

// The element that words spell. A block of too many octets is refused.
pub(crate) fn element(heap: Global, words: &mut Words<'_>) -> Result<Element, Stop>
    ensures answer { Means (spelled_of words.old) result }
{
    let form = words.next().ok_or(Stop::Unreadable)?.parse::<Form>()?;
    element_as(heap, form, words)
}

// The element of a form. One match, as over the verbs.
fn element_as(heap: Global, form: Form, words: &mut Words<'_>) -> Result<Element, Stop>
    ensures answer { Means (spelled_as form words.old) result }
{
    match form {
        Form::Ray => ray(words).map(Element::Ray).ok_or(Stop::Unreadable),
        Form::Thickness => one_float(words)
            .map(|x| Element::Tweak(Tweak::Thickness(x)))
            .ok_or(Stop::Unreadable),
        Form::Tilt => two_floats(words)
            .map(|(x, y)| Element::Tweak(Tweak::Tilt(x, y)))
            .ok_or(Stop::Unreadable),
        Form::Index => one_float(words)
            .map(|x| Element::Tweak(Tweak::Index(x)))
            .ok_or(Stop::Unreadable),
        Form::Block => {
            let octets = bytes_alone(heap, words)?;
            Ok(Element::Block(Block::new(octets.as_slice())?))
        }
    }
}
