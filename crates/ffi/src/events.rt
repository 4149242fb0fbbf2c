// Events on lent memory.
ghost use Rattle.std.specs.Prelude.{◌≡◌};
ghost use Rattle.entry.specs.Entries.{refusal_of};
ghost use Rattle.ffi.specs.Calls.{code_of, place_after, pulses_of, work_after, moved_after, memory_after};

use entry::{Done, happen};

// Does an event on the work in memory: 0 a tick, 1 a hold, 2 a go, 3 the knob turned to a number. The pulses go into
// `moved`. The C interface fixed the form: numbers, slices, and a code.
pub fn mill_happen(
    change: u64,
    top: u64,
    targets: &[i64],
    memory: &mut [i64],
    kind: u64,
    number: u64,
    moved: &mut [i64; 2],
    place: &mut [u64; 1],
) -> u64
    ensures code { result ≡ code_of (refusal_of change top targets.now memory.old kind number) }
    ensures place { place.new ≡ place_after (refusal_of change top targets.now memory.old kind number) place.old }
    ensures moved { let d = pulses_of change top targets.now memory.old kind number in moved.new ≡ moved_after (refusal_of change top targets.now memory.old kind number) d.x d.y moved.old }
    ensures memory { memory.new ≡ memory_after (refusal_of change top targets.now memory.old kind number) (work_after change top targets.now memory.old kind number) memory.old }
{
    match happen(change, top, targets, memory, kind, number) {
        Done::Moved(x, y) => {
            *moved = [x, y];
            0
        }
        Done::Turned(refusal) => {
            *place = [refusal.place()];
            refusal.number()
        }
    }
}
