// The control for programs in C and Rust: functions over numbers and slices, which `ffi_c` exports. A call returns 0, or
// the number of its refusal, and then changes nothing but the place of the refusal. It knows nothing of texts.

#![tactic(auto)]

mod events;
mod programs;

pub use events::mill_happen;
pub use programs::mill_say;
