// Does what a line asks for. The allocator is passed beside the words, as std passes it: a struct of both would say no more.
ghost use Rattle.std.specs.Prelude.{◌≡◌, ◌≢◌, ◌≤◌, length, IfOk, MatchResult};
ghost use Rattle.std.specs.Result.{result_ok};
ghost use Rattle.answers.specs.Faults.{number_of};
ghost use Rattle.words.specs.Lines.{text_of, words_of};
ghost use Rattle.script.specs.Plays.{Plays, PlaysVerb, PlaysRead, PlaysElement, PlaysMessage, ReadsElement, WritesMessage, Answered, answer_to};
ghost use Rattle.script.specs.Spelled.{element_octets};

use crate::answer::Answer;
use crate::element::{Element, Kind};
use crate::spelling::{bytes_alone, element, header};
use crate::stop::Stop;
use crate::verb::Verb;
use answers::Fault;
use bytesable::{Block, Bytesable, Ray, Tweak};
use framing::write_message;
use networking::MessageHeader;
use std::alloc::{AllocError, Global};
use words::{Words, line_text};

// Plays one line of a script, as it was read.
pub fn play_line(heap: Global, line: &[u8]) -> Result<Answer, AllocError>
    ensures answer { IfOk result (λ a. Plays (words_of (text_of line.now)) a) }
{
    let text = line_text(heap, line)?;
    play(heap, text.as_str())
}

// Plays the text of a line.
pub fn play(heap: Global, line: &str) -> Result<Answer, AllocError>
    ensures answer { IfOk result (λ a. Plays (words_of line.now) a) }
{
    // These two answers are no errors: there is no verb yet that could be stopped.
    let mut words = Words::of(line);
    let Some(word) = words.next().filter(|word| !word.starts_with('#')) else {
        return Ok(Answer::Nothing);
    };
    let Ok(verb) = word.parse::<Verb>() else {
        return Ok(Answer::Unreadable(None));
    };
    answered(verb, play_verb(heap, verb, &mut words))
}

// The answer to a line of the verb, where it was stopped too.
fn answered(verb: Verb, played: Result<Answer, Stop>) -> Result<Answer, AllocError>
    ensures answer { result_ok result ≡ answer_to verb played }
{
    match played {
        Ok(answer) => Ok(answer),
        Err(Stop::Unreadable) => Ok(Answer::Unreadable(Some(verb))),
        Err(Stop::Refused(fault)) => Ok(Answer::Refused(verb, fault)),
        Err(Stop::OutOfMemory(error)) => Err(error),
    }
}

// The verbs are these alone, so one match over them is plainer than a closure for each: a missing one is refused.
fn play_verb(heap: Global, verb: Verb, words: &mut Words<'_>) -> Result<Answer, Stop>
    ensures answer { Answered verb result (PlaysVerb verb words.old) }
{
    match verb {
        Verb::Message => play_message(heap, words),
        Verb::Read => play_read(heap, words),
        Verb::Element => play_element(heap, words),
    }
}

fn play_read(heap: Global, words: &Words<'_>) -> Result<Answer, Stop>
    ensures answer { Answered Verb.Read result (PlaysRead words.now) }
{
    let octets = bytes_alone(heap, words)?;
    Ok(Answer::Header(MessageHeader::try_read(octets.as_slice())))
}

fn play_element(heap: Global, words: &mut Words<'_>) -> Result<Answer, Stop>
    ensures answer { Answered Verb.Element result (PlaysElement words.old) }
{
    let kind = words.next().ok_or(Stop::Unreadable)?.parse::<Kind>()?;
    let octets = bytes_alone(heap, words)?;
    let element = read_element(kind, octets.as_slice())?;
    Ok(Answer::Element(element))
}

// The element of a kind that the octets mean. One match, as over the verbs.
fn read_element(kind: Kind, octets: &[u8]) -> Result<Element, Fault>
    ensures answer { MatchResult result (λ e. ReadsElement kind octets.now (Answer.Element e)) (λ f. ReadsElement kind octets.now (Answer.Refused Verb.Element f)) }
{
    match kind {
        Kind::Ray => read_over(Ray::default(), octets),
        Kind::Tweak => read_over(Tweak::Thickness(0.0), octets),
        Kind::Block => read_over(Block::empty(), octets),
    }
}

// The element of one type that the octets mean; it is read over a value of that type.
fn read_over<T: Bytesable + Into<Element> + Copy>(
    mut value: T,
    octets: &[u8],
) -> Result<Element, Fault>
    ensures answer { MatchResult result (λ e. (x : T) × T.converts x e × (octets.now ≡ T.bytes x)) (λ f. (number_of f ≡ 14) × ((x : T) → octets.now ≢ T.bytes x)) }
{
    value.from_bytes(octets)?;
    Ok(value.into())
}

fn play_message(heap: Global, words: &mut Words<'_>) -> Result<Answer, Stop>
    ensures answer { Answered Verb.Message result (PlaysMessage words.old) }
{
    let header = header(words).ok_or(Stop::Unreadable)?;
    let element = element(heap, words)?;
    write_element(heap, &header, &element)
}

// The octets of a message that carries the element.
fn write_element(heap: Global, header: &MessageHeader, element: &Element) -> Result<Answer, Stop>
    ensures answer { Answered Verb.Message result (WritesMessage header.now (element_octets element.now)) }
{
    match element {
        Element::Ray(ray) => write_bytesable(heap, header, ray),
        Element::Tweak(tweak) => write_bytesable(heap, header, tweak),
        Element::Block(block) => write_bytesable(heap, header, block),
    }
}

fn write_bytesable<T: Bytesable>(
    heap: Global,
    header: &MessageHeader,
    element: &T,
) -> Result<Answer, Stop>
    requires { length (T.bytes element.now) ≤ 96 }
    ensures answer { Answered Verb.Message result (WritesMessage header.now (T.bytes element.now)) }
{
    let mut message = vec![in heap; 0u8; 48 + element.length_in_bytes()]?;
    write_message(header, element, message.as_mut_slice())?;
    Ok(Answer::Message(message))
}
