// Why a script is turned away, with what a sentence about it needs.
ghost use Rattle.std.specs.Prelude.{◌≡◌};
ghost use Rattle.script.specs.Refusals.{refusal};
ghost use Rattle.refusal.specs.declared.failed.Failed.TheVariants.{Refused};
ghost use Rattle.script.specs.declared.fault.ScriptError.TheVariants.{Number};

use geometry::Place;
use refusal::{EventPart, Failed, LentPart, MachinePart, Refusal};

// What may stand where a word stands that can't.
#[derive(Clone, Copy)]
pub enum Expected {
    Machine,
    Order,
    Number,
    Fast,
    End,
}

// A number that is out of its limits.
#[derive(Clone, Copy)]
pub enum Fault {
    Change(u64),
    Top(u64),
    Far(Place),
    Knob(u64),
}

// A word that can't stand where it stands: none where the line, or the script, ends too early.
#[derive(Clone, Copy)]
pub struct Wrong<'a> {
    pub found: Option<&'a [u8]>,
    pub expected: Expected,
}

#[derive(Clone, Copy)]
pub enum ScriptError<'a> {
    // The line, counted from 0.
    Text(u64, Wrong<'a>),
    Number(Fault),
}

impl ScriptError<'_> {
    pub fn refusal(&self) -> Refusal
        ensures { result ≡ refusal self.now }
    {
        match self {
            ScriptError::Text(line, _) => Refusal::Text(*line),
            ScriptError::Number(Fault::Change(_)) => Refusal::Machine(MachinePart::Change),
            ScriptError::Number(Fault::Top(_)) => Refusal::Machine(MachinePart::Top),
            ScriptError::Number(Fault::Far(_)) => Refusal::Lent(LentPart::Place),
            ScriptError::Number(Fault::Knob(_)) => Refusal::Event(EventPart::Number),
        }
    }
}

impl<'a> From<ScriptError<'a>> for Failed<ScriptError<'a>> {
    ghost from_gives = { λ e r. r ≡ Refused e };

    fn from(error: ScriptError<'a>) -> Failed<ScriptError<'a>> {
        Failed::Refused(error)
    }
}

impl From<Fault> for Failed<ScriptError<'_>> {
    ghost from_gives = { λ f r. r ≡ Refused (Number f) };

    fn from(fault: Fault) -> Self {
        Failed::Refused(ScriptError::Number(fault))
    }
}
