// An event on lent numbers, once every check has passed.
ghost use Rattle.std.specs.Prelude.{◌≡◌, Some, None, map, MatchResult};
ghost use Rattle.entry.specs.Entries.{Checked, event_checks, refusal_of, InRange, targets_in, work_in, event_of};
ghost use Rattle.program.specs.Targets.{target_in};
ghost use Rattle.pulses.specs.Motors.{pulses};
ghost use Rattle.work.specs.Works.{happens};

use crate::lent::{target_at, targets_in};
use crate::memory::work_in;
use control::machine;
use pulses::Pulses;
use refusal::{EventPart, Refusal};
use work::{Event, Machine, Work};

#[derive(Drop)]
pub struct Request<'a> {
    machine: Machine,
    targets: &'a [[i64; 3]],
    work: Work,
    event: Event,
    ghost range: { InRange machine (map target_in targets.now) work },
}

impl<'a> Request<'a> {
    // Reads what is lent, in the order of the list of refusals.
    pub fn read(
        change: u64,
        top: u64,
        targets: &'a [i64],
        memory: &[i64],
        kind: u64,
        number: u64,
    ) -> Result<Request<'a>, Refusal>
        ensures { MatchResult result (λ r. (refusal_of change top targets.now memory.now kind number ≡ None) × (r.machine ≡ record { change = change; top = top }) × (map target_in r.targets.now ≡ targets_in targets.now) × (r.work ≡ work_in memory.now) × (r.event ≡ event_of kind number)) (λ e. refusal_of change top targets.now memory.now kind number ≡ Some e) }
    {
        Ok(Request {
            machine: machine(change, top)?,
            targets: targets_in(targets)?,
            work: work_in(memory)?,
            event: event(kind, number)?,
        })
    }

    // What the event makes of the work, and the pulses that it gives.
    pub fn step(&self) -> (Work, Pulses)
        ensures work { result.0 ≡ happens self.now.machine (map target_in self.now.targets.now) self.now.event self.now.work }
        ensures pulses { result.1 ≡ pulses self.now.machine (map target_in self.now.targets.now) self.now.event self.now.work }
    {
        let next = target_at(self.targets, self.work.motion.behind);
        let before = self.work.motion.place(next);
        let after = self.work.happen(self.machine, next, self.event);
        let place = after
            .motion
            .place(target_at(self.targets, after.motion.behind));
        (after, Pulses::between(before, place))
    }
}

// The event of a kind, with a number that only the knob uses.
fn event(kind: u64, number: u64) -> Result<Event, Refusal>
    ensures { Checked (event_checks kind number) result (λ event. event ≡ event_of kind number) }
{
    let event = match kind {
        0 => Event::Tick,
        1 => Event::Hold,
        2 => Event::Go,
        3 => Event::Knob(number),
        _ => return Err(Refusal::Event(EventPart::Kind)),
    };
    if number > 1000 {
        return Err(Refusal::Event(EventPart::Number));
    }
    Ok(event)
}
