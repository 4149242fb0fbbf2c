// Speeds in steps a tick: how far it takes to stop, the fastest speed that can still stop, and the next speed under a cap.
//
// It knows numbers only: what is left of a line, the speed it has, by how much a tick may change it, and a cap. It knows
// nothing of places, targets or knobs.
//
//     speed  |      _______            the cap
//            |    _/       \_
//            |  _/           \_        each tick changes it by at most the change,
//            |_/               \_      and what is left always suffices to stop
//            +------------------------ ticks

#![tactic(auto)]

ghost use Rattle.speed.specs.Laws.{SpeedLaws};

mod change;

pub use change::Change;

// The laws of speeds hold of these definitions.
pub fn speed_laws_hold() -> u8
    ensures { SpeedLaws }
{
    0
}
