// A node of a program, decoded from its four numbers. It names others by their number, as in the format in which programs
// are lent, where a node may be named many times.
ghost use Rattle.std.specs.Prelude.{◌≡◌};
ghost use Rattle.program.specs.Nodes.{decoded};
ghost use Rattle.program.specs.Answers.{names_below};

use count::count;
use geometry::Place;

#[derive(Clone, Copy)]
pub enum Node {
    // Says nothing.
    Nothing,
    // Goes to a place, so fast.
    To(Place, u64),
    // Goes by a way from where it is, so fast.
    By(Place, u64),
    // One node, then another.
    Next(usize, usize),
    // A node so many times.
    Times(u64, usize),
    // A node in a frame whose 0, 0 lies at a place.
    At(Place, usize),
    // A node in a frame turned a quarter to the left.
    Turn(usize),
    // A node in a frame with left and right exchanged.
    Mirror(usize),
    // The sub-program that is a node.
    Sub(usize),
}

impl Node {
    // The node of four numbers: its kind, and what that kind has. None if there is no such kind. A walk decodes a node at
    // each step, so this is to be inlined there.
    #[inline]
    pub fn of(numbers: &[i64; 4]) -> Option<Node>
        ensures { result ≡ decoded numbers.now }
    {
        let [kind, a, b, c] = *numbers;
        let node = match count(kind) {
            0 => Node::Nothing,
            1 => Node::To(Place { x: a, y: b }, count(c)),
            2 => Node::By(Place { x: a, y: b }, count(c)),
            3 => Node::Next(count(a) as usize, count(b) as usize),
            4 => Node::Times(count(a), count(b) as usize),
            5 => Node::At(Place { x: a, y: b }, count(c) as usize),
            6 => Node::Turn(count(a) as usize),
            7 => Node::Mirror(count(a) as usize),
            8 => Node::Sub(count(a) as usize),
            _ => return None,
        };
        Some(node)
    }

    // Whether it names only nodes before n.
    pub fn names_below(self, n: usize) -> bool
        ensures { result ≡ names_below n self }
    {
        match self {
            Node::Nothing | Node::To(_, _) | Node::By(_, _) => true,
            Node::Next(a, b) => a < n && b < n,
            Node::Times(_, a) | Node::At(_, a) | Node::Turn(a) | Node::Mirror(a) | Node::Sub(a) => a
                < n,
        }
    }
}
