// Why a text, a program, a target, a machine or a number is turned away: one list for the whole control.
//
// A refusal has a number, the first of the list that applies, and a place: which number, node, target or line it is
// about, counted from 0. The list is only ever added to. What is refused changes nothing that was lent.

#![tactic(auto)]

ghost use Rattle.std.specs.Prelude.{◌≡◌, ◌++◌, Some, codes, decimal};
ghost use Rattle.refusal.specs.Refusals.{number, place};

mod failed;

pub use failed::Failed;
use std::fmt;

// What of a machine is turned away.
#[derive(Clone, Copy, PartialEq, Eq, Debug)]
pub enum MachinePart {
    Change,
    Top,
}

// What of lent numbers: targets that aren't three numbers each, a place past 10^9, or memory.
#[derive(Clone, Copy, PartialEq, Eq, Debug)]
pub enum LentPart {
    Targets,
    Place,
    Memory,
}

// What of an event: its kind, or the number with it.
#[derive(Clone, Copy, PartialEq, Eq, Debug)]
pub enum EventPart {
    Kind,
    Number,
}

#[derive(Clone, Copy, PartialEq, Eq, Debug)]
pub enum Refusal {
    // 1: nodes that aren't four numbers each, none, or more than 1,024. How many numbers.
    Shape(u64),
    // 2: a number of a program past 1,000,000 either way. Its place.
    Number(u64),
    // 3: a node of no kind, or one that names itself or a later one. The node.
    Node(u64),
    // 4: a room too short for the targets. How many targets, at most 2^40.
    Room(u64),
    // 5: a target past 10^9 either way. The target.
    Reach(u64),
    // 6: a change or a top speed of 0 or above 1,000,000. Which.
    Machine(MachinePart),
    // 7: lent numbers that can't be taken. Which.
    Lent(LentPart),
    // 8: an event that can't happen, or a number with it above 1,000. Which.
    Event(EventPart),
    // 9: a text that can't be read. Its line.
    Text(u64),
}

impl Refusal {
    // Its number in the list.
    pub fn number(self) -> u64
        ensures { result ≡ number self }
    {
        match self {
            Refusal::Shape(_) => 1,
            Refusal::Number(_) => 2,
            Refusal::Node(_) => 3,
            Refusal::Room(_) => 4,
            Refusal::Reach(_) => 5,
            Refusal::Machine(_) => 6,
            Refusal::Lent(_) => 7,
            Refusal::Event(_) => 8,
            Refusal::Text(_) => 9,
        }
    }

    // Its place, counted from 0.
    pub fn place(self) -> u64
        ensures { result ≡ place self }
    {
        match self {
            Refusal::Shape(n)
            | Refusal::Number(n)
            | Refusal::Node(n)
            | Refusal::Room(n)
            | Refusal::Reach(n)
            | Refusal::Text(n) => n,
            Refusal::Machine(MachinePart::Change) => 0,
            Refusal::Machine(MachinePart::Top) => 1,
            Refusal::Lent(LentPart::Targets) => 0,
            Refusal::Lent(LentPart::Place) => 1,
            Refusal::Lent(LentPart::Memory) => 2,
            Refusal::Event(EventPart::Kind) => 0,
            Refusal::Event(EventPart::Number) => 1,
        }
    }
}

// Its number and its place, as programs print them.
impl fmt::Display for Refusal {
    ghost output = { λ r. Some (decimal (number r) ++ (codes " " ++ decimal (place r))) };

    fn fmt<W: fmt::Write>(&self, f: &mut fmt::Formatter<W>) -> fmt::Result {
        write!(f, "{} {}", self.number(), self.place())
    }
}
