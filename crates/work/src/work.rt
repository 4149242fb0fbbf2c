// Work: the motion and the panel. Each method takes it by value and gives it back.
ghost use Rattle.std.specs.Prelude.{◌≡◌, [], ◌∷◌};
ghost use Rattle.std.specs.Option.{option_to_list};
ghost use Rattle.work.specs.Ranges.{Slow, Ready};
ghost use Rattle.work.specs.Works.{begun, held, let_go, turned_to, does};
ghost use Rattle.work.specs.declared.event.Event.TheVariants.{Tick};

use crate::event::Event;
use crate::machine::Machine;
use crate::motion::Motion;
use crate::panel::Panel;
use geometry::Place;
use program::Target;

#[derive(Clone, Copy)]
pub struct Work {
    pub motion: Motion,
    pub panel: Panel,
}

impl Work {
    // Work that begins at a place: not held, the knob at 100.
    pub fn begin(from: Place) -> Work
        ensures { result ≡ begun from }
    {
        Work {
            motion: Motion::begin(from),
            panel: Panel {
                held: false,
                percent: 100,
            },
        }
    }

    // A tick on the way to a target.
    #[tactic(auto, unfolding(crate::specs::Works::toward))]
    pub fn tick_toward(self, machine: Machine, target: Target) -> Work
        requires slow { Slow machine self.motion }
        ensures { result ≡ does machine (target ∷ []) Tick self }
    {
        Work {
            motion: self.motion.advance(
                machine.change,
                self.panel.cap(machine, target.fast),
                target,
            ),
            ..self
        }
    }

    // A tick, on the way to the next target; with none left nothing moves.
    #[tactic(auto, unfolding(crate::specs::Works::toward))]
    pub fn tick(self, machine: Machine, next: Option<Target>) -> Work
        requires ready { Ready machine self.motion next }
        ensures { result ≡ does machine (option_to_list next) Tick self }
    {
        match next {
            None => self,
            Some(target) => self.tick_toward(machine, target),
        }
    }

    // Held: it slows as much as may be, and stands.
    pub fn hold(self) -> Work
        ensures { result ≡ held self }
    {
        self.with_held(true)
    }

    // Let go.
    pub fn go(self) -> Work
        ensures { result ≡ let_go self }
    {
        self.with_held(false)
    }

    // Held or let go.
    fn with_held(self, held: bool) -> Work
        ensures { result ≡ record { motion = self.motion; panel = record { held = held; percent = self.panel.percent } } }
    {
        Work {
            panel: Panel { held, ..self.panel },
            ..self
        }
    }

    // The knob turned to a percent, above 100 meaning 100.
    pub fn knob(self, percent: u64) -> Work
        ensures { result ≡ turned_to percent self }
    {
        let panel = Panel {
            percent: percent.min(100) as u32,
            ..self.panel
        };
        Work { panel, ..self }
    }

    // What an event does.
    pub fn happen(self, machine: Machine, next: Option<Target>, event: Event) -> Work
        requires ready { Ready machine self.motion next }
        ensures { result ≡ does machine (option_to_list next) event self }
    {
        match event {
            Event::Tick => self.tick(machine, next),
            Event::Hold => self.hold(),
            Event::Go => self.go(),
            Event::Knob(percent) => self.knob(percent),
        }
    }
}
