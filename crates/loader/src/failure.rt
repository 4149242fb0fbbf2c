// Why a text says no targets.
ghost use Rattle.std.specs.Prelude.{◌≡◌};
ghost use Rattle.loader.specs.Texts.{refusal_in, failure_of};

use refusal::{Failed, Refusal};
use text::Unreadable;

// Not a `Failed`: `?` makes it of the reader's failures, and only the crate of `Failed` may say how one is made of another.
#[derive(Drop)]
pub enum Failure {
    Unreadable(Unreadable),
    // With the program's numbers, for whoever tells it in words.
    Refused(Refusal, Vec<i64>),
    Memory,
}

impl Failure {
    // Its refusal; none for want of memory.
    pub fn refusal(&self) -> Option<Refusal>
        ensures { result ≡ refusal_in self.now }
    {
        match self {
            Failure::Unreadable(unreadable) => Some(Refusal::from(*unreadable)),
            Failure::Refused(refusal, _) => Some(*refusal),
            Failure::Memory => None,
        }
    }
}

impl From<Failed<Unreadable>> for Failure {
    ghost from_gives = { λ e r. r ≡ failure_of e };

    fn from(failed: Failed<Unreadable>) -> Failure {
        match failed {
            Failed::Refused(unreadable) => Failure::Unreadable(unreadable),
            Failed::Memory => Failure::Memory,
        }
    }
}
