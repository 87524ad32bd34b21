// A ray where it meets a surface.
ghost use Rattle.std.specs.Prelude.{◌≡◌, Decides};
ghost use Rattle.octets.specs.Octets.{Reads};
ghost use Rattle.bytesable.specs.Rays.{ray_octets};

use crate::element::Bytesable;
use crate::field::Field;
use answers::Fault;

#[derive(Clone, Copy, Debug, Default, PartialEq, Eq, Hash)]
pub struct Ray {
    // The number of the surface.
    pub surface: u32,
    // The height above the axis, in picometres.
    pub height: i64,
    // The optical path so far, in picometres.
    pub path: i64,
}

const SURFACE: Field = Field {
    at: 0,
    tag: 0x01,
    size: 4,
};

const HEIGHT: Field = Field {
    at: 7,
    tag: 0x02,
    size: 8,
};

const PATH: Field = Field {
    at: 18,
    tag: 0x03,
    size: 8,
};

impl Ray {
    pub const BYTES: usize = 29;

    // The ray that the octets mean, where there is one.
    fn read(from: &[u8]) -> Option<Ray>
        ensures answer { Reads ray_octets from.now result }
    {
        if from.len() != Ray::BYTES {
            return None;
        }
        let surface = SURFACE.read::<u32>(from)?;
        let height = HEIGHT.read::<i64>(from)?;
        let path = PATH.read::<i64>(from)?;
        Some(Ray {
            surface,
            height,
            path,
        })
    }
}

// Whether two rays mean the same octets. They are taken by value: a proof knows then that each field fits its type.
fn same_ray(a: Ray, b: Ray) -> bool
    ensures { Decides result (ray_octets a ≡ ray_octets b) }
{
    a == b
}

impl Bytesable for Ray {
    ghost bytes = { ray_octets };

    #[tactic(auto, using(crate::proofs::RayLaws::sizes))]
    fn length_in_bytes(&self) -> usize {
        Ray::BYTES
    }

    #[tactic(auto, using(crate::proofs::RayLaws::sizes))]
    fn into_bytes(&self, out: &mut [u8]) -> Result<(), Fault> {
        if out.len() != Ray::BYTES {
            return Err(Fault::Mismatched);
        }
        SURFACE.put(out, self.surface)?;
        HEIGHT.put(out, self.height)?;
        PATH.put(out, self.path)?;
        Ok(())
    }

    // These two lines stand for each element that has a `read`: a default in the trait would ask every element for one.
    fn from_bytes(&mut self, from: &[u8]) -> Result<(), Fault> {
        *self = Ray::read(from).ok_or(Fault::NoValue)?;
        Ok(())
    }

    fn same(&self, other: &Ray) -> bool {
        same_ray(*self, *other)
    }
}
