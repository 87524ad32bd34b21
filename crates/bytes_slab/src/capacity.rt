ghost use Rattle.bytes_slab.specs.Slabs.{seen};
ghost use Rattle.bytes_slab.specs.Capacity.{Ensures};

use crate::slab::BytesSlab;
use answers::Fault;
use pieces::FreeBuffers;

impl BytesSlab {
    // Sees to it that `capacity` bytes may be written. A slab that lacks them takes the next free buffer in cyclic order
    // after its own, and moves its valid bytes to the front.
    pub fn ensure_capacity(
        &mut self,
        capacity: usize,
        free: &FreeBuffers<'_>,
        region: &mut [u8],
    ) -> Result<(), Fault>
        ensures after { Ensures capacity free.now (seen self.old) region.old result (seen self.new) region.new }
    {
        if !self.shape.holds(region) || free.leases.buffers() != self.shape.buffers {
            return Err(Fault::RegionLength);
        }
        let size = self.shape.size;
        if capacity <= size - self.end {
            return Ok(());
        }
        let valid = self.end - self.begin;
        if capacity > size - valid {
            return Err(Fault::NoFreeBuffer);
        }
        let buffer = free.next_after(self.buffer).ok_or(Fault::NoFreeBuffer)?;
        let old = self.buffer * size;
        region.copy_within(old + self.begin..old + self.end, buffer * size);
        self.buffer = buffer;
        self.begin = 0;
        self.end = valid;
        Ok(())
    }
}
