// The one bounded container: queues, tables and channels are made of it, and none of them allocates.
#![tactic(auto)]

ghost use Rattle.std.specs.Prelude.{◌≡◌, ◌≤◌, length, ⊤};

mod table;

use std::alloc::AllocError;

// At most N values, front first. An array with a length beside it, since nothing here allocates, and the kit's ArrayVec is
// not Copy, as a block, a queue and lease counts are. No Model: Copy asks one for the fields back, and a list of
// the values does not say what stands in the unused places. No derived Debug and no `==`, here and on what is made of a table:
// they would read those places.
#[derive(Copy)]
pub struct Fixed<T: Copy, const N: usize> {
    items: [T; N],
    len: usize,
    ghost full: { length items ≡ N },
    ghost fits: { len ≤ N },
}

// By hand, since no Clone is derived over a ghost field in a generic type.
impl<T: Copy, const N: usize> Clone for Fixed<T, N> {
    ghost is_clone = { λ x y. y ≡ x };

    ghost is_infallible = { λ _. ⊤ };

    fn clone(&self) -> Result<Fixed<T, N>, AllocError> {
        Ok(*self)
    }
}
