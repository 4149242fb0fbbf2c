// Refusals in plain words: `refused`, the number and the place, and then a sentence for whoever wrote what is refused.
// It knows nothing of how a fault is found.

#![tactic(auto)]

mod programs;
mod scripts;

pub use programs::ProgramSentence;
pub use scripts::Sentence;
