// Pulses: what each motor gets in a tick. One pulse, one step, so a motor's place is where it began plus the sum of its
// pulses. It knows nothing of programs.

#![tactic(auto)]

ghost use Rattle.std.specs.Prelude.{◌≡◌};
ghost use Rattle.geometry.specs.Places.{Within};
ghost use Rattle.pulses.specs.Motors.{between, MotorLaws};

use geometry::Place;

#[derive(Clone, Copy)]
pub struct Pulses {
    pub x: i64,
    pub y: i64,
}

impl Pulses {
    // The pulses that bring each axis from one place to another.
    pub fn between(before: Place, after: Place) -> Pulses
        requires before { Within 4000000000 before }
        requires after { Within 4000000000 after }
        ensures { result ≡ between before after }
    {
        Pulses {
            x: after.x - before.x,
            y: after.y - before.y,
        }
    }
}

// A motor follows the work, over every row of events.
#[tactic(auto, using(crate::proofs::Follows::motor_laws))]
pub fn motor_follows() -> u8
    ensures { MotorLaws }
{
    0
}
