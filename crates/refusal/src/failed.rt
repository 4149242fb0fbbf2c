// Why what needs memory was not done: what was given is turned away, or there is not enough memory.
ghost use Rattle.std.specs.Prelude.{◌≡◌};
ghost use Rattle.refusal.specs.declared.failed.Failed.TheVariants.{Memory, Refused};

use crate::Refusal;
use std::alloc::{AllocError, AllocFailed};

#[derive(Clone, Copy, PartialEq, Eq, Debug, Drop)]
pub enum Failed<E> {
    Refused(E),
    Memory,
}

impl<E> From<AllocError> for Failed<E> {
    ghost from_gives = { λ _ r. r ≡ Memory };

    fn from(_: AllocError) -> Failed<E> {
        Failed::Memory
    }
}

impl<E, T: Drop> From<AllocFailed<T>> for Failed<E> {
    ghost from_gives = { λ _ r. r ≡ Memory };

    fn from(_: AllocFailed<T>) -> Failed<E> {
        Failed::Memory
    }
}

impl From<Refusal> for Failed<Refusal> {
    ghost from_gives = { λ e r. r ≡ Refused e };

    fn from(refusal: Refusal) -> Failed<Refusal> {
        Failed::Refused(refusal)
    }
}
