// The functions for programs in C and Rust, exported from a static library: a slice is a pointer and then a length, and an
// array of a known length is a pointer alone. Each is the function of its name in `ffi`, with its clauses.

#![tactic(auto)]

ghost use Rattle.std.specs.Prelude.{◌≡◌, ◌/◌, length};
ghost use Rattle.entry.specs.Entries.{refusal_of as event_refusal};
ghost use Rattle.ffi.specs.Calls.{code_of, said_place, place_after, pulses_of, work_after, moved_after, memory_after};
ghost use Rattle.program.specs.Answers.{refusal_of, room_after, said};

// Writes the targets that a program says into the room, three numbers each, and how many there are into `place`.
#[unsafe(no_mangle)]
pub extern "C" fn mill_say(nodes: &[i64], room: &mut [i64], place: &mut [u64; 1]) -> u64
    ensures code { result ≡ code_of (refusal_of nodes.now (length room.old / 3)) }
    ensures place { place.new ≡ said_place (refusal_of nodes.now (length room.old / 3)) (length (said nodes.now)) }
    ensures room { room.new ≡ room_after (refusal_of nodes.now (length room.old / 3)) (said nodes.now) room.old }
{
    ffi::mill_say(nodes, room, place)
}

// Does an event on the work in memory: 0 a tick, 1 a hold, 2 a go, 3 the knob turned to a number. The pulses go into
// `moved`.
#[unsafe(no_mangle)]
pub extern "C" fn mill_happen(
    change: u64,
    top: u64,
    targets: &[i64],
    memory: &mut [i64],
    kind: u64,
    number: u64,
    moved: &mut [i64; 2],
    place: &mut [u64; 1],
) -> u64
    ensures code { result ≡ code_of (event_refusal change top targets.now memory.old kind number) }
    ensures place { place.new ≡ place_after (event_refusal change top targets.now memory.old kind number) place.old }
    ensures moved { let d = pulses_of change top targets.now memory.old kind number in moved.new ≡ moved_after (event_refusal change top targets.now memory.old kind number) d.x d.y moved.old }
    ensures memory { memory.new ≡ memory_after (event_refusal change top targets.now memory.old kind number) (work_after change top targets.now memory.old kind number) memory.old }
{
    ffi::mill_happen(change, top, targets, memory, kind, number, moved, place)
}
