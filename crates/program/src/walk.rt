// The evaluator: goes through a program node by node and says its targets, in order, into a room.
ghost use Rattle.std.specs.Prelude.{◌≡◌, ◌+◌, ◌*◌, ◌^◌, ◌<◌, ◌≤◌, length};
ghost use Rattle.program.specs.Programs.{going};
ghost use Rattle.program.specs.Sound.{meant};

use super::node::Node;
use super::program::Program;
use super::slot::Slot;
use super::target::Target;
use geometry::{Frame, Place};

// A target out of reach: the teller stands before the first one. It holds no refusal, since a result that does makes a walk
// take half as long again.
#[derive(Clone, Copy)]
pub struct OutOfReach;

// Who says targets into a room: where it is, seen from outside, and how many it has said.
#[derive(Drop)]
pub struct Teller<'r, T: Slot> {
    pub room: &'r mut [T],
    pub at: Place,
    pub said: u64,
}

impl<'r, T: Slot> Teller<'r, T> {
    ghost use Rattle.program.specs.Walks.{Ready, Walked, went_in};

    pub fn new(room: &'r mut [T]) -> Teller<'r, T>
        ensures { result ≡ record { room = room.entry; at = Place.ORIGIN; said = 0 } }
    {
        Teller {
            room,
            at: Place::ORIGIN,
            said: 0,
        }
    }

    // Says one target.
    fn put(&mut self, target: Target) -> Result<(), OutOfReach>
        requires roomy { T.Slot.width * (self.old.said + 1) ≤ length self.old.room.now }
        requires slow { target.fast ≤ 1000000 }
        requires fits { self.old.said + 1 < 2 ^ 64 }
        ensures same_room { self.new.room.ghost_name ≡ self.old.room.ghost_name }
        ensures walked { Walked T.Slot.slots T.Slot.width self.old (going target) result self.new }
    {
        if !target.to.is_within(Place::REACH) {
            return Err(OutOfReach);
        }
        T::store(self.room, self.said, target);
        self.at = target.to;
        self.said += 1;
        Ok(())
    }

    // Says what the node n of a program says in a frame. A node that says nothing is left at once, however often it is
    // repeated.
    pub fn walk(&mut self, program: &Program, n: usize, frame: Frame) -> Result<(), OutOfReach>
        requires { Ready program.now n frame self.old T.Slot.width }
        ensures same_room { self.new.room.ghost_name ≡ self.old.room.ghost_name }
        ensures walked { Walked T.Slot.slots T.Slot.width self.old (went_in frame (meant program.now.nodes.now n) self.old.at) result self.new }
    {
        if program.count(n) == 0 {
            return Ok(());
        }
        match program.node(n) {
            Node::Nothing => Ok(()),
            Node::To(p, fast) => self.put(Target {
                to: frame.place(p),
                fast,
            }),
            Node::By(d, fast) => self.put(Target {
                to: self.at.moved(frame.way(d)),
                fast,
            }),
            Node::Next(a, b) => {
                self.walk(program, a, frame)?;
                self.walk(program, b, frame)
            }
            Node::Times(times, body) => {
                for _ in 0..times {
                    self.walk(program, body, frame)?;
                }
                Ok(())
            }
            Node::At(p, body) => self.walk(program, body, frame.at(p)),
            Node::Turn(body) => self.walk(program, body, frame.turn()),
            Node::Mirror(body) => self.walk(program, body, frame.mirror()),
            Node::Sub(body) => self.walk(program, body, frame),
        }
    }
}
