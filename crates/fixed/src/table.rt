ghost use Rattle.std.specs.Prelude.{◌≡◌, ◌↔◌, ◌==◌, ◌-◌, ◌<◌, ◌≤◌, min, [], length, replicate, slice_set, IsNone, IfSome};
ghost use Rattle.std.specs.List.{slice_get, remove};
ghost use Rattle.fixed.specs.Held.{held, Pushes};

use crate::Fixed;

impl<T: Copy, const N: usize> Fixed<T, N> {
    // One that holds nothing; `blank` stands in the places that are not used.
    pub fn new(blank: T) -> Self
        ensures answer { held result ≡ [] }
    {
        Fixed::filled(blank, 0)
    }

    // One that holds a value `count` times, N times at most.
    pub fn filled(value: T, count: usize) -> Self
        ensures answer { held result ≡ replicate (min count N) value }
    {
        Fixed {
            items: [value; N],
            len: count.min(N),
        }
    }

    // One that holds these values; none where they are more than N. `blank` stands in the places that are not used.
    pub fn from_slice(blank: T, values: &[T]) -> Option<Self>
        ensures too_many { IsNone result ↔ (N < length values.now) }
        ensures answer { IfSome result (λ f. held f ≡ values.now) }
    {
        if values.len() > N {
            return None;
        }
        let mut items = [blank; N];
        items[..values.len()].copy_from_slice(values);
        Some(Fixed {
            items,
            len: values.len(),
        })
    }

    // The values, front first.
    pub fn as_slice(&self) -> &[T]
        ensures answer { result.now ≡ held self.now }
        ensures most { length result.now ≤ N }
    {
        &self.items[..self.len]
    }

    pub fn len(&self) -> usize
        ensures answer { result ≡ length (held self.now) }
    {
        self.len
    }

    pub fn is_empty(&self) -> bool
        ensures answer { result ≡ (length (held self.now) == 0) }
    {
        self.len == 0
    }

    pub fn get(&self, i: usize) -> Option<T>
        ensures answer { result ≡ slice_get (held self.now) i }
    {
        self.as_slice().get(i).copied()
    }

    // The value behind all others.
    pub fn back(&self) -> Option<T>
        ensures answer { result ≡ slice_get (held self.now) (length (held self.now) - 1) }
    {
        self.as_slice().last().copied()
    }

    // Another value at `i`, where there is one; answers the one that stood there.
    #[tactic(auto, using(crate::proofs::Places::inside))]
    pub fn replace(&mut self, i: usize, value: T) -> Option<T>
        ensures answer { result ≡ slice_get (held self.old) i }
        ensures after { held self.new ≡ slice_set (held self.old) i value }
    {
        let old = self.get(i)?;
        self.items[i] = value;
        Some(old)
    }

    // One value more at the back; where there is no place, it is given back.
    pub fn push_back(&mut self, value: T) -> Result<(), T>
        ensures after { Pushes N value (held self.old) result (held self.new) }
    {
        let len = self.len;
        if len == N {
            return Err(value);
        }
        self.items[len] = value;
        self.len = len + 1;
        Ok(())
    }

    // Takes the value at `i` out, and those behind it move up.
    #[tactic(auto, using(crate::proofs::Places::inside))]
    pub fn remove(&mut self, i: usize) -> Option<T>
        ensures answer { result ≡ slice_get (held self.old) i }
        ensures after { held self.new ≡ remove (held self.old) i }
    {
        let old = self.get(i)?;
        self.items.copy_within(i + 1..self.len, i);
        self.len -= 1;
        Some(old)
    }

    pub fn pop_front(&mut self) -> Option<T>
        ensures answer { result ≡ slice_get (held self.old) 0 }
        ensures after { held self.new ≡ remove (held self.old) 0 }
    {
        self.remove(0)
    }
}
