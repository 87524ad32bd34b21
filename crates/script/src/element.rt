// Elements of every kind.
ghost use Rattle.std.specs.Prelude.{◌≡◌};
ghost use Rattle.std.specs.Result.{result_ok};
ghost use Rattle.script.specs.Names.{form_of, kind_of};

use crate::stop::UnknownName;
use bytesable::{Block, Ray, Tweak};
use std::str::FromStr;

#[derive(Clone, Copy)]
pub enum Element {
    Ray(Ray),
    Tweak(Tweak),
    Block(Block),
}

impl From<Ray> for Element {
    ghost use Rattle.script.specs.declared.element.Element.TheVariants as element;

    ghost from_gives = { λ x e. e ≡ element.Ray x };

    fn from(ray: Ray) -> Element {
        Element::Ray(ray)
    }
}

impl From<Tweak> for Element {
    ghost use Rattle.script.specs.declared.element.Element.TheVariants as element;

    ghost from_gives = { λ x e. e ≡ element.Tweak x };

    fn from(tweak: Tweak) -> Element {
        Element::Tweak(tweak)
    }
}

impl From<Block> for Element {
    ghost use Rattle.script.specs.declared.element.Element.TheVariants as element;

    ghost from_gives = { λ x e. e ≡ element.Block x };

    fn from(block: Block) -> Element {
        Element::Block(block)
    }
}

// A type of elements.
#[derive(Clone, Copy, Debug, PartialEq, Eq, Hash)]
pub(crate) enum Kind {
    Ray,
    Tweak,
    Block,
}

// The kind that a word names: a table for each type, as for verbs.
impl FromStr for Kind {
    type Err = UnknownName;

    ghost from_str_gives = { λ word r. result_ok r ≡ kind_of word };

    fn from_str(word: &str) -> Result<Kind, UnknownName> {
        match word {
            "ray" => Ok(Kind::Ray),
            "tweak" => Ok(Kind::Tweak),
            "block" => Ok(Kind::Block),
            _ => Err(UnknownName),
        }
    }
}

// How an element is spelled.
#[derive(Clone, Copy, Debug, PartialEq, Eq, Hash)]
pub(crate) enum Form {
    Ray,
    Thickness,
    Tilt,
    Index,
    Block,
}

// The form that a word names: a table for each type, as for verbs.
impl FromStr for Form {
    type Err = UnknownName;

    ghost from_str_gives = { λ word r. result_ok r ≡ form_of word };

    fn from_str(word: &str) -> Result<Form, UnknownName> {
        match word {
            "ray" => Ok(Form::Ray),
            "thickness" => Ok(Form::Thickness),
            "tilt" => Ok(Form::Tilt),
            "index" => Ok(Form::Index),
            "block" => Ok(Form::Block),
            _ => Err(UnknownName),
        }
    }
}
