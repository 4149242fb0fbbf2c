// What a program in numbers says: into a lent room, or as targets of its own.
ghost use Rattle.std.specs.Prelude.{◌≡◌, ◌/◌, ◌^◌, min, length};
ghost use Rattle.program.specs.Answers.{answer, refusal_of, room_after, said};
ghost use Rattle.program.specs.Loads.{Loaded};

use super::program::Program;
use super::target::Target;
use geometry::Place;
use refusal::{Failed, Refusal};
use std::alloc::Global;

// No `Result`: those who call `say` were promised these two cases by name.
#[derive(Clone, Copy, PartialEq, Eq, Debug)]
pub enum Said {
    // So many targets.
    Says(u64),
    Refused(Refusal),
}

// More targets than any memory holds, and fewer than a count is cut to.
const MOST_TARGETS: u64 = 1 << 60;

// Writes the targets that a program says into the room, three numbers each, and answers how many. The rest of the room
// stays as it was, and all of it where the program is refused.
pub fn say(nodes: &[i64], room: &mut [i64]) -> Said
    ensures answer { result ≡ answer (refusal_of nodes.now (length room.old / 3)) (said nodes.now) }
    ensures room { room.new ≡ room_after (refusal_of nodes.now (length room.old / 3)) (said nodes.now) room.old }
{
    match Program::checked(nodes, room.len() as u64 / 3) {
        // The checks have found every target within reach.
        Ok(program) => Said::Says(program.run(room).unwrap()),
        Err(refusal) => Said::Refused(refusal),
    }
}

// The targets that a program says, where there are no more than `most`, or than 2^60, which no memory holds.
pub fn load(heap: Global, nodes: &[i64], most: u64) -> Result<Vec<Target>, Failed<Refusal>>
    ensures { Loaded nodes.now (min most (2 ^ 60)) result }
{
    let program = Program::checked(nodes, most.min(MOST_TARGETS))?;
    let nowhere = Target {
        to: Place::ORIGIN,
        fast: 0,
    };
    let mut targets = vec![in heap; nowhere; program.targets() as usize]?;
    program.run(targets.as_mut_slice()).unwrap();
    Ok(targets)
}
