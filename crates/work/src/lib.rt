// Work: motion along targets under a cap, the operator's panel, and what can happen to them.
//
//     panel (held, percent) --cap--> motion (targets behind, line's beginning, steps done, speed)
//
// Only a tick moves anything, and it sees the panel as one number, the cap. A hold, a go and a turn of the knob change
// the panel alone. It knows nothing of texts, or of numbers lent by others.

#![tactic(auto)]

ghost use Rattle.work.specs.Promises.{Promised};
ghost use Rattle.work.specs.Worked.{Worked};

mod event;
mod machine;
mod motion;
mod panel;
mod work;

pub use event::Event;
pub use machine::Machine;
pub use motion::Motion;
pub use panel::Panel;
pub use work::Work;

// The promise holds: for every machine that can move, every list of targets and every row of events.
#[tactic(auto, using(crate::proofs::Promise::promised))]
pub fn promise_holds() -> u8
    ensures { Promised }
{
    0
}

// The worked examples hold, tick by tick.
pub fn worked_table_holds() -> u8
    ensures { Worked }
{
    0
}
