ghost use Rattle.std.specs.Prelude.{◌≡◌, ◌<◌, count_by, IfSome};
ghost use Rattle.std.specs.List.{find, range_with_len};
ghost use Rattle.pieces.specs.Counts.{behind};
ghost use Rattle.pieces.specs.Free.{buffers, is_free};

use crate::leases::Leases;

// The free buffers of a region: those that have no piece, and are no slab's working buffer.
#[derive(Clone, Copy)]
pub struct FreeBuffers<'a> {
    pub leases: &'a Leases,
    pub working: &'a [Option<usize>],
}

impl FreeBuffers<'_> {
    // Whether a buffer is one of them.
    pub fn contains(&self, buffer: usize) -> bool
        ensures answer { result ≡ is_free self.now buffer }
    {
        self.leases.count(buffer) == Some(0) && !self.working.contains(&Some(buffer))
    }

    // The next of them in cyclic order after one.
    pub fn next_after(&self, own: usize) -> Option<usize>
        ensures answer { result ≡ find (is_free self.now) (behind own (buffers self.now)) }
        ensures known { IfSome result (λ buffer. buffer < buffers self.now) }
    {
        let buffers = self.leases.buffers();
        let above = own.saturating_add(1)..buffers;
        let below = 0..own.min(buffers);
        above.chain(below).find(|&buffer| self.contains(buffer))
    }

    // The lowest of them.
    pub fn lowest(&self) -> Option<usize>
        ensures answer { result ≡ find (is_free self.now) (range_with_len 0 (buffers self.now)) }
        ensures known { IfSome result (λ buffer. buffer < buffers self.now) }
    {
        (0..self.leases.buffers()).find(|&buffer| self.contains(buffer))
    }

    // How many they are.
    pub fn count(&self) -> usize
        ensures answer { result ≡ count_by (is_free self.now) (range_with_len 0 (buffers self.now)) }
    {
        (0..self.leases.buffers())
            .filter(|&buffer| self.contains(buffer))
            .count()
    }
}
