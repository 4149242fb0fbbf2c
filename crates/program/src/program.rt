// A program whose nodes are checked and counted, and the checks, in the order of the list of refusals.
ghost use Rattle.std.specs.Prelude.{◌≡◌, ◌-◌, ◌*◌, ◌^◌, ◌<◌, ◌≤◌, length, min};
ghost use Rattle.program.specs.Answers.{first_in, said, small};
ghost use Rattle.program.specs.Nodes.{node_in, nodes as node_count};
ghost use Rattle.program.specs.Programs.{count};
ghost use Rattle.program.specs.Sound.{meant, Counts, Sound};

use super::counts::{MOST_NODES, count_all};
use super::node::Node;
use super::slot::{Slot, Unkept};
use super::walk::Teller;
use geometry::Frame;
use refusal::Refusal;

// No number of a program is past this either way.
const LARGEST: u64 = 1_000_000;

// How many targets a refusal counts at most.
const MOST_COUNTED: u64 = 1 << 40;

// The numbers stay where they are lent, and the counts stand in an array of a fixed length: no heap is needed for a program.
#[derive(Drop)]
pub struct Program<'a> {
    pub nodes: &'a [i64],
    // How many targets each node says.
    pub counts: [u64; MOST_NODES],
    ghost sound: { Sound nodes.now },
    ghost counted: { Counts nodes.now counts (node_count nodes.now) },
}

// The place of the first number that is too large.
fn first_large(nodes: &[i64]) -> Option<usize>
    ensures { result ≡ first_in small 0 nodes.now }
{
    nodes.iter().position(|z| z.unsigned_abs() > LARGEST)
}

impl<'a> Program<'a> {
    ghost use Rattle.program.specs.Walks.{Checked, Ran};

    // The program in these numbers, if there is nothing to refuse and room for so many targets.
    pub fn checked(nodes: &'a [i64], most: u64) -> Result<Program<'a>, Refusal>
        requires { most < 2 ^ 64 - 1 }
        ensures { Checked nodes.now most result }
    {
        let len = nodes.len();
        if len % 4 != 0 || len == 0 || len > 4 * MOST_NODES {
            return Err(Refusal::Shape(len as u64));
        }
        if let Some(place) = first_large(nodes) {
            return Err(Refusal::Number(place as u64));
        }
        let counts = count_all(nodes)?;
        let program = Program { nodes, counts };
        let targets = program.targets();
        if targets > most {
            return Err(Refusal::Room(targets.min(MOST_COUNTED)));
        }
        let mut unkept: [Unkept; 0] = [];
        program.run(&mut unkept)?;
        Ok(program)
    }

    // How many targets it says.
    pub fn targets(&self) -> u64
        ensures { result ≡ min (length (said self.now.nodes.now)) (2 ^ 64 - 1) }
    {
        self.count(self.last())
    }

    // Says the whole program into a room, or finds its first target out of reach. How many targets there are.
    pub fn run<T: Slot>(&self, room: &mut [T]) -> Result<u64, Refusal>
        requires fits { length (said self.now.nodes.now) < 2 ^ 64 }
        requires roomy { T.Slot.width * length (said self.now.nodes.now) ≤ length room.old }
        ensures { Ran T.Slot.slots room.old (said self.now.nodes.now) result room.new }
    {
        let mut teller = Teller::new(room);
        teller
            .walk(self, self.last(), Frame::OUTSIDE)
            .map_err(|_| Refusal::Reach(teller.said))?;
        Ok(teller.said)
    }

    // The node that is the whole program.
    fn last(&self) -> usize
        ensures { result ≡ node_count self.now.nodes.now - 1 }
    {
        self.nodes.len() / 4 - 1
    }

    // How many targets the node n says.
    pub fn count(&self, n: usize) -> u64
        requires { n < node_count self.now.nodes.now }
        ensures { result ≡ min (count (meant self.now.nodes.now n)) (2 ^ 64 - 1) }
    {
        self.counts[n]
    }

    // The node n, inlined as its decoding is.
    #[inline]
    pub fn node(&self, n: usize) -> Node
        requires { n < node_count self.now.nodes.now }
        ensures { result ≡ node_in self.now.nodes.now n }
    {
        Node::of(&self.nodes.as_chunks::<4>().0[n]).unwrap()
    }
}
