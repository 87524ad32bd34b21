// Laws of regions: what merging, cutting, writing, leasing, changing the buffer and extending a queue leave.
#![tactic(auto)]

ghost use Rattle.regions.specs.Buffers.{Buffers};
ghost use Rattle.regions.specs.Bytes.{Bytes};
ghost use Rattle.regions.specs.Leases.{Leases};
ghost use Rattle.regions.specs.Queues.{Queues};

// Bytes of pieces: the theorem is this call's contract, and so with those below.
pub fn bytes_hold() -> bool
    ensures { Bytes }
{
    true
}

// Lease counts and free buffers.
pub fn leases_hold() -> bool
    ensures { Leases }
{
    true
}

// The change of the working buffer.
pub fn buffers_hold() -> bool
    ensures { Buffers }
{
    true
}

// Queues that are extended.
pub fn queues_hold() -> bool
    ensures { Queues }
{
    true
}
