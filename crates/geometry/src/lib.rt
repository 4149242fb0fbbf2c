// Places in steps, and the frames that a program's lines stand in. It knows nothing of programs or of time.

#![tactic(auto)]

mod frame;
mod place;

pub use frame::{Frame, frames_act};
pub use place::Place;
