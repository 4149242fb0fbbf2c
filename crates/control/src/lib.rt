// The control: a machine and its targets, checked once, and the work along them; and the thin entry over lent numbers.
//
//     targets --load--> Control --tick, hold, go, knob--> pulses
//
// A control's state is always what some row of events leads to, so each call's contract gives the promise of work. It
// knows nothing of texts.

#![tactic(auto)]

mod control;
mod machines;

pub use control::Control;
pub use machines::machine;
