// The words of a line, which blanks part.
ghost use Rattle.std.specs.Prelude.{◌≡◌, ℕ, List, [], ◌∷◌, length, IfOk, string_bytes, MatchOption, ◌≢◌};
ghost use Rattle.std.specs.Iterator.{at_most};
ghost use Rattle.words.specs.Lines.{plain_of, text_of, unreturned, words_of};

use std::alloc::{AllocError, Global};
use std::marker::Model;

// The words of a line that are still to be read.
#[derive(Debug, Drop)]
pub struct Words<'a> {
    rest: &'a str,
}

impl<'a> Model for Words<'a> {
    ghost use Rattle.std.specs.Prelude.{ℕ, List};
    ghost use Rattle.words.specs.Lines.{words_of};

    ghost Value = { List (List ℕ) };

    ghost view = { λ w. words_of w.rest.now };
}

impl<'a> Words<'a> {
    // `of` and no `From`: nothing is generic over what becomes words, and the clause stands where it is called.
    pub fn of(line: &'a str) -> Words<'a>
        ensures { result ≡ words_of line.now }
    {
        Words { rest: line }
    }

    // The word that is left, where it is just one.
    pub fn only(&self) -> Option<&'a str>
        ensures answer { MatchOption result ((w : List ℕ) → self.now ≢ w ∷ []) (λ w. self.now ≡ w.now ∷ []) }
    {
        only_word(self.rest)
    }
}

// The words in their order.
impl<'a> Iterator for Words<'a> {
    type Item = &'a str;

    ghost next_gives = { λ before word after. MatchOption word ((before ≡ []) × (after ≡ [])) (λ w. before ≡ w.now ∷ after) };

    ghost remaining = { λ words. at_most (length words) };

    #[inline]
    fn next(&mut self) -> Option<&'a str> {
        let (word, rest) = next_word(self.rest)?;
        self.rest = rest;
        Some(word)
    }
}

// The first word of a line and what is behind it. This and `only_word` stay beside `Words`, which is made of them. Inlined, as
// `next` above: parting words is a seventh of what a message line takes.
#[inline]
pub fn next_word(line: &str) -> Option<(&str, &str)>
    ensures answer { MatchOption result (words_of line.now ≡ []) (λ p. words_of line.now ≡ p.0.now ∷ words_of p.1.now) }
{
    let line = line.trim_start_matches(' ');
    if line.is_empty() {
        return None;
    }
    Some(line.split_once(' ').unwrap_or((line, "")))
}

// The word of a line that has just one.
pub fn only_word(line: &str) -> Option<&str>
    ensures answer { MatchOption result ((w : List ℕ) → words_of line.now ≢ w ∷ []) (λ w. words_of line.now ≡ w.now ∷ []) }
{
    let (word, rest) = next_word(line)?;
    next_word(rest).is_none().then_some(word)
}

// The text of a line: a carriage return at its end is no part of it, and each byte that is no ASCII becomes a question mark, which
// no word has a use for.
pub fn line_text(heap: Global, line: &[u8]) -> Result<String, AllocError>
    ensures answer { IfOk result (λ t. string_bytes t ≡ text_of line.now) }
{
    without_return(line)
        .iter()
        .map(|byte| plain(*byte))
        .collect(heap)
}

// A line without a carriage return at its end.
fn without_return(line: &[u8]) -> &[u8]
    ensures { result.now ≡ unreturned line.now }
{
    line.strip_suffix(b"\r").unwrap_or(line)
}

// A byte as text.
fn plain(byte: u8) -> char
    ensures answer { result ≡ plain_of byte }
{
    if byte.is_ascii() {
        char::from(byte)
    } else {
        '?'
    }
}
