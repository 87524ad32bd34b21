// A change of one figure of a lens stack.
ghost use Rattle.std.specs.Prelude.{◌≡◌, ◌++◌, length, Decides};
ghost use Rattle.answers.specs.Faults.{Fills};
ghost use Rattle.octets.specs.Octets.{Reads};
ghost use Rattle.bytesable.specs.Fields.{head};
ghost use Rattle.bytesable.specs.Tweaks.{double, tweak_octets};

use crate::element::Bytesable;
use crate::field::Field;
use answers::Fault;
use octets::Number;
use std::num::f64_to_bits_with_nan;

#[derive(Clone, Copy, Debug)]
pub enum Tweak {
    // The thickness behind a surface.
    Thickness(f64),
    // Two angles of tilt.
    Tilt(f64, f64),
    // A refractive index.
    Index(f64),
}

const THICKNESS: Field = Field {
    at: 0,
    tag: 0x10,
    size: 8,
};

const TILT: Field = Field {
    at: 0,
    tag: 0x11,
    size: 16,
};

const INDEX: Field = Field {
    at: 0,
    tag: 0x12,
    size: 8,
};

// The octets of a tweak of one float, and of two.
const SINGLE: usize = 11;

const DOUBLE: usize = 19;

impl Tweak {
    // The tweak that the octets mean, where there is one.
    fn read(from: &[u8]) -> Option<Tweak>
        ensures answer { Reads tweak_octets from.now result }
    {
        match from.len() {
            SINGLE => Tweak::read_single(from),
            DOUBLE => Tweak::read_tilt(from),
            _ => None,
        }
    }

    fn read_single(from: &[u8]) -> Option<Tweak>
        requires { length from.now ≡ 11 }
        ensures answer { Reads tweak_octets from.now result }
    {
        let thickness = THICKNESS.read::<f64>(from);
        let index = INDEX.read::<f64>(from);
        thickness.map(Tweak::Thickness).or(index.map(Tweak::Index))
    }

    fn read_tilt(from: &[u8]) -> Option<Tweak>
        requires { length from.now ≡ 19 }
        ensures answer { Reads tweak_octets from.now result }
    {
        let first = TILT.read::<f64>(from)?;
        let second = f64::read_at(from, SINGLE)?;
        Some(Tweak::Tilt(first, second))
    }
}

// Whether two floats have one pattern, so that a not-a-number is the same as itself and the zeros differ.
fn same_pattern(a: f64, b: f64) -> bool
    ensures { Decides result (double a ≡ double b) }
{
    f64_to_bits_with_nan(a) == f64_to_bits_with_nan(b)
}

// Fills `out` with a tweak of one float.
fn fill_single(out: &mut [u8], field: Field, x: f64) -> Result<(), Fault>
    requires front { field.at ≡ 0 }
    requires size { length out.old ≡ 11 }
    ensures { Fills (head field.tag field.size ++ double x) out.old result out.new }
{
    field.put(out, x)
}

// Fills `out` with a tweak of two.
fn fill_tilt(out: &mut [u8], first: f64, second: f64) -> Result<(), Fault>
    requires { length out.old ≡ 19 }
    ensures { Fills (tweak_octets (Tweak.Tilt first second)) out.old result out.new }
{
    TILT.put(out, first)?;
    second.write_at(out, SINGLE)
}

impl Bytesable for Tweak {
    ghost bytes = { tweak_octets };

    #[tactic(auto, using(crate::proofs::TweakLaws::sizes))]
    fn length_in_bytes(&self) -> usize {
        match self {
            Tweak::Thickness(_) | Tweak::Index(_) => SINGLE,
            Tweak::Tilt(_, _) => DOUBLE,
        }
    }

    #[tactic(auto, using(crate::proofs::TweakLaws::sizes))]
    fn into_bytes(&self, out: &mut [u8]) -> Result<(), Fault> {
        if out.len() != self.length_in_bytes() {
            return Err(Fault::Mismatched);
        }
        match *self {
            Tweak::Thickness(thickness) => fill_single(out, THICKNESS, thickness),
            Tweak::Tilt(first, second) => fill_tilt(out, first, second),
            Tweak::Index(index) => fill_single(out, INDEX, index),
        }
    }

    fn from_bytes(&mut self, from: &[u8]) -> Result<(), Fault> {
        *self = Tweak::read(from).ok_or(Fault::NoValue)?;
        Ok(())
    }

    // No derived `==`: that of floats is another. An arm for each variant, since each names its own floats.
    fn same(&self, other: &Tweak) -> bool {
        match (*self, *other) {
            (Tweak::Thickness(a), Tweak::Thickness(b)) => same_pattern(a, b),
            (Tweak::Tilt(a, b), Tweak::Tilt(c, d)) => same_pattern(a, c) && same_pattern(b, d),
            (Tweak::Index(a), Tweak::Index(b)) => same_pattern(a, b),
            _ => false,
        }
    }
}
