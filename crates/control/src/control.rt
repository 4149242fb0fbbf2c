// A loaded control. What holds of it in every state: its machine can move, its targets are near, and its work is what
// some row of events leads to from the beginning.
ghost use Rattle.std.specs.Prelude.{◌≡◌, ◌≢◌, length, Ok, Err, IfOk, MatchResult, nat_le};
ghost use Rattle.geometry.specs.Places.{Within};
ghost use Rattle.control.specs.Controls.{near, origin, load_of, Loaded, Happened, Added, Few};
ghost use Rattle.pulses.specs.Motors.{pulses};
ghost use Rattle.work.specs.Works.{begun, place};
ghost use Rattle.work.specs.declared.event.Event.TheVariants.{Tick, Hold, Go, Knob};

use crate::machines::machine;
use geometry::Place;
use program::Target;
use pulses::Pulses;
use refusal::{Failed, LentPart, Refusal};
use std::marker::Model;
use work::{Event, Machine, Work};

#[derive(Drop)]
pub struct Control {
    machine: Machine,
    targets: Vec<Target>,
    work: Work,
    // Where it is, so that a tick reckons one place and not two.
    at: Place,
}

impl Model for Control {
    ghost use Rattle.control.specs.Controls.{State, IsLoaded};

    ghost Value = { State };

    ghost view = { λ c. record { machine = c.machine; targets = c.targets.items; work = c.work } };

    ghost invariant = { λ c. IsLoaded c.machine c.targets.items c.work c.at };
}

impl Control {
    // A control at the beginning, at 0, 0, with its machine and targets checked.
    pub fn load(change: u64, top: u64, targets: Vec<Target>) -> Result<Control, Refusal>
        ensures value { MatchResult result (λ c. (load_of change top targets.items ≡ Ok c.machine) × (c.targets ≡ targets.items) × (c.work ≡ begun origin)) (λ e. load_of change top targets.items ≡ Err e) }
        ensures loaded { IfOk result Loaded }
    {
        let machine = machine(change, top)?;
        if !all_near(&targets) {
            return Err(Refusal::Lent(LentPart::Place));
        }
        Ok(Control {
            machine,
            targets,
            work: Work::begin(Place::ORIGIN),
            at: Place::ORIGIN,
        })
    }

    // A tick, and the pulses that it gives. It goes toward a target and not toward an option of one, which would be copied
    // with its padding, several ns a tick (docs/PERFORMANCE.md).
    pub fn tick(&mut self) -> Pulses
        ensures happened { Happened self.old Tick self.new }
        ensures pulses { result ≡ pulses self.old.machine self.old.targets Tick self.old.work }
        ensures few { Few self.old result }
    {
        let behind = self.work.motion.behind;
        let Some(&target) = self.targets.get(behind) else {
            return Pulses { x: 0, y: 0 };
        };
        let work = self.work.tick_toward(self.machine, target);
        let at = work.motion.place_after(behind, target);
        let pulses = Pulses::between(self.at, at);
        self.work = work;
        self.at = at;
        pulses
    }

    // Held: it slows as much as may be, and stands.
    pub fn hold(&mut self)
        ensures { Happened self.old Hold self.new }
    {
        self.turn(Event::Hold);
    }

    // Let go.
    pub fn go(&mut self)
        ensures { Happened self.old Go self.new }
    {
        self.turn(Event::Go);
    }

    // The knob turned to a percent, above 100 meaning 100.
    pub fn knob(&mut self, percent: u64)
        ensures { Happened self.old (Knob percent) self.new }
    {
        self.turn(Event::Knob(percent));
    }

    // An event at the panel, which moves nothing.
    fn turn(&mut self, event: Event)
        requires { event ≢ Tick }
        ensures { Happened self.old event self.new }
    {
        self.work = self.work.happen(self.machine, None, event);
    }

    // One target more, behind the others.
    pub fn add(&mut self, target: Target) -> Result<(), Failed<Refusal>>
        ensures added { Added target result self.old self.new }
        ensures loaded { Loaded self.new }
    {
        // Looked at first, so that what holds of the control is known where a target is refused, too.
        let targets = &mut self.targets;
        let near = target.is_near();
        if !near {
            return Err(Refusal::Lent(LentPart::Place).into());
        }
        targets.push(target)?;
        Ok(())
    }

    // Whether no target is left.
    pub fn is_done(&self) -> bool
        ensures done { result ≡ nat_le (length self.now.targets) self.now.work.motion.behind }
        ensures loaded { Loaded self.now }
    {
        self.targets.len() <= self.work.motion.behind
    }

    // Where it is.
    pub fn place(&self) -> Place
        ensures at { result ≡ place self.now.targets self.now.work.motion }
        ensures loaded { Loaded self.now }
        ensures near { Within 4000000000 result }
    {
        self.at
    }
}

// Whether no target is past 10^9 on an axis.
fn all_near(targets: &[Target]) -> bool
    ensures { result ≡ near targets.now }
{
    targets.iter().all(|target| target.is_near())
}
