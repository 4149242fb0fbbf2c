// The control over lent numbers, for a panel and a motor driver that know numbers and no structs: one event on memory of
// seven numbers. What is lent is checked whole before anything is done, so what is turned away changes nothing.

#![tactic(auto)]

ghost use Rattle.entry.specs.Agreement.{Agrees};

mod done;
mod events;
mod lent;
mod memory;
mod request;

pub use done::Done;
pub use events::happen;

// An event on the memory of a loaded control does what the control does.
pub fn entry_agrees() -> u8
    ensures { Agrees }
{
    0
}
