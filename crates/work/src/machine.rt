// A machine: by how much its speed may change from one tick to the next, and its top speed, in steps a tick.
#[derive(Clone, Copy)]
pub struct Machine {
    pub change: u64,
    pub top: u64,
}
