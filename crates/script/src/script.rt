// What a script says.
use program::Target;

// The machine of a script: its numbers as they are written, not yet checked.
#[derive(Clone, Copy)]
pub struct Machine {
    pub change: u64,
    pub top: u64,
}

#[derive(Clone, Copy)]
pub enum Order {
    To(Target),
    Tick(u64),
    Hold,
    Go,
    Knob(u64),
    Where,
}

#[derive(Drop)]
pub struct Script {
    pub machine: Machine,
    pub orders: Vec<Order>,
}
