// From a part program's text to its targets, and to a loaded control: the text is read, its nodes are checked, and they say
// their targets.
//
//     text --read--> nodes --load--> targets --load--> control
//
// A text that can't be read is refused before anything else is checked.

#![tactic(auto)]

mod controls;
mod failure;
mod texts;

pub use controls::{load_nodes, load_text};
pub use failure::Failure;
pub use texts::targets;
