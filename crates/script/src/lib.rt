// The script that the player plays: a machine, and orders one to a line. It is read whole and checked whole, so that
// nothing is milled of a script that has a fault in it.
//
//     machine 2 100       by how much the speed may change in a tick, and the highest
//     to 20 7 fast 5      a target
//     tick 3              that many ticks
//     hold                and its like: go, knob 50, where
//
// It knows nothing of what the orders do.

#![tactic(auto)]

mod fault;
mod lines;
mod order;
mod reader;
mod script;
mod words;

pub use fault::{Expected, Fault, ScriptError, Wrong};
pub use reader::read;
pub use script::{Machine, Order, Script};
