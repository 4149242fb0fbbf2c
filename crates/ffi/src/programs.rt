// Programs in numbers.
ghost use Rattle.std.specs.Prelude.{◌≡◌, ◌/◌, length};
ghost use Rattle.ffi.specs.Calls.{code_of, said_place};
ghost use Rattle.program.specs.Answers.{refusal_of, room_after, said};

use program::{Said, say};

// Writes the targets that a program says into the room, three numbers each, and how many there are into `place`. The C
// interface fixed the form.
pub fn mill_say(nodes: &[i64], room: &mut [i64], place: &mut [u64; 1]) -> u64
    ensures code { result ≡ code_of (refusal_of nodes.now (length room.old / 3)) }
    ensures place { place.new ≡ said_place (refusal_of nodes.now (length room.old / 3)) (length (said nodes.now)) }
    ensures room { room.new ≡ room_after (refusal_of nodes.now (length room.old / 3)) (said nodes.now) room.old }
{
    match say(nodes, room) {
        Said::Says(targets) => {
            *place = [targets];
            0
        }
        Said::Refused(refusal) => {
            *place = [refusal.place()];
            refusal.number()
        }
    }
}
