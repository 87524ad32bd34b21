use fixed::Fixed;

// How many pieces lie in each buffer of a region: a kept count for each. No Model, since the table in it has none.
#[derive(Clone, Copy)]
pub struct Leases {
    pub counts: Fixed<u16, 16>,
}
