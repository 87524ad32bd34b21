// What a line asks for.
ghost use Rattle.std.specs.Prelude.{◌≡◌, Some};
ghost use Rattle.std.specs.Result.{result_ok};
ghost use Rattle.script.specs.Names.{verb_name, verb_of};

use crate::stop::UnknownName;
use std::fmt;
use std::str::FromStr;

#[derive(Clone, Copy, Debug, PartialEq, Eq, Hash)]
pub enum Verb {
    Message,
    Read,
    Element,
}

// The verb that a word names. A table for each type, here and for kinds and forms: no macro of ours may write an `impl`.
impl FromStr for Verb {
    type Err = UnknownName;

    ghost from_str_gives = { λ word r. result_ok r ≡ verb_of word };

    fn from_str(word: &str) -> Result<Verb, UnknownName> {
        match word {
            "message" => Ok(Verb::Message),
            "read" => Ok(Verb::Read),
            "element" => Ok(Verb::Element),
            _ => Err(UnknownName),
        }
    }
}

// The word that names the verb.
impl fmt::Display for Verb {
    ghost output = { λ v. Some (verb_name v) };

    fn fmt<W: fmt::Write>(&self, f: &mut fmt::Formatter<W>) -> fmt::Result {
        f.write_str(match self {
            Verb::Message => "message",
            Verb::Read => "read",
            Verb::Element => "element",
        })
    }
}
