// Why a text can't be read.
ghost use Rattle.std.specs.Prelude.{◌≡◌};
ghost use Rattle.refusal.specs.declared.Refusal.TheVariants.{Text as refused_text};
ghost use Rattle.refusal.specs.declared.failed.Failed.TheVariants.{Refused};

use refusal::{Failed, Refusal};

#[derive(Clone, Copy, Debug)]
pub enum Expected {
    Line,
    LineOrClose,
    Number,
    Fast,
    Semicolon,
    Times,
    Name,
    Open,
}

// The first word that can't stand where it stands, or the end of the text where it ends too early.
#[derive(Clone, Copy, Debug)]
pub struct Unreadable {
    // How many line feeds stand before it.
    pub line: u64,
    // Where it starts and ends in the text.
    pub start: usize,
    pub end: usize,
    pub expected: Expected,
}

impl From<Unreadable> for Refusal {
    ghost from_gives = { λ e r. r ≡ refused_text e.line };

    fn from(unreadable: Unreadable) -> Refusal {
        Refusal::Text(unreadable.line)
    }
}

// A word that can't stand where it stands, or an end that comes too early.
#[derive(Clone, Copy)]
pub struct Misplaced;

impl From<Misplaced> for Failed<Misplaced> {
    ghost from_gives = { λ e r. r ≡ Refused e };

    fn from(misplaced: Misplaced) -> Failed<Misplaced> {
        Failed::Refused(misplaced)
    }
}
