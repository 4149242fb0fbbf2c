// Programs in numbers: nodes of four numbers, and the targets that they say, one after the other. It knows nothing of
// texts, of lines between targets or of time.

#![tactic(auto)]

mod counts;
mod entry;
mod laws;
mod node;
mod program;
mod slot;
mod target;
mod walk;

pub use entry::{Said, load, say};
pub use laws::frames_hold;
pub use target::Target;
