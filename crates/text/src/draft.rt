// A program's nodes while its text is read: those built so far, the blocks that are open, and the sub-programs.
ghost use Rattle.std.specs.Prelude.{◌≡◌, IfOk, OnOk};
ghost use Rattle.count.specs.Counts.{size};
ghost use Rattle.text.specs.Nodes.{next_node, numbers_of, body_of};
ghost use Rattle.text.specs.Reading.{Stepped, Finished};
ghost use Rattle.text.specs.Reading.{empty, added, put_line, begun, bodied, outside, fresh, ended, closed, named, expected_of, at_end};

use crate::error::{Expected, Misplaced};
use crate::node::Node;
use crate::phase::{Head, Phase};
use count::count;
use refusal::Failed;
use std::alloc::{AllocError, Global};
use std::marker::Model;

// An open block, and the node of the lines before it.
#[derive(Clone, Copy)]
pub struct Opened {
    pub head: Head,
    pub before: Option<i64>,
}

// Clauses see what is held.
#[derive(Drop)]
pub struct Draft {
    // Four numbers each.
    nodes: Vec<i64>,
    // The node of the lines so far in this block.
    last: Option<i64>,
    blocks: Vec<Opened>,
    // The node of each sub-program's body.
    subs: Vec<i64>,
}

impl Model for Draft {
    ghost use Rattle.std.specs.Prelude.{reverse, vec_items};
    ghost use Rattle.text.specs.Reading.{Held};

    ghost Value = { Held };

    ghost view = { λ d. record { laid = record { nodes = vec_items d.nodes; last = d.last }; blocks = reverse (vec_items d.blocks); subs = vec_items d.subs } };
}

impl Draft {
    pub fn new(heap: Global) -> Draft
        ensures { result ≡ empty }
    {
        Draft {
            nodes: Vec::new(heap),
            last: None,
            blocks: Vec::new(heap),
            subs: Vec::new(heap),
        }
    }

    // A node behind all others, and its number.
    fn add(&mut self, node: Node) -> Result<i64, AllocError>
        ensures value { IfOk result (λ n. n ≡ next_node self.old.laid.nodes) }
        ensures after { OnOk result (self.new ≡ added (numbers_of node) self.old) }
    {
        let this = (self.nodes.len() / 4) as i64;
        self.nodes.extend_from_slice(&<[i64; 4]>::from(node))?;
        Ok(this)
    }

    // A line's node, joined to the lines before it.
    pub fn put(&mut self, node: Node) -> Result<(), AllocError>
        ensures { OnOk result (self.new ≡ put_line (numbers_of node) self.old) }
    {
        let this = self.add(node)?;
        self.last = match self.last {
            Some(so_far) => Some(self.add(Node::Next(so_far, this))?),
            None => Some(this),
        };
        Ok(())
    }

    // The node of the lines so far; where there are none, one that says nothing.
    fn body(&mut self) -> Result<i64, AllocError>
        ensures value { IfOk result (λ n. n ≡ body_of self.old.laid) }
        ensures after { OnOk result (self.new ≡ bodied self.old) }
    {
        match self.last {
            Some(node) => Ok(node),
            None => self.add(Node::Nothing),
        }
    }

    pub fn open(&mut self, head: Head) -> Result<(), AllocError>
        ensures { OnOk result (self.new ≡ begun head self.old) }
    {
        let before = self.last;
        self.blocks.push(Opened { head, before })?;
        self.last = None;
        Ok(())
    }

    // Whether no block is open.
    fn is_outside(&self) -> bool
        ensures { result ≡ outside self.now.blocks }
    {
        self.blocks.is_empty()
    }

    // Whether no line has begun, outside of all blocks.
    fn is_fresh(&self) -> bool
        ensures { result ≡ fresh self.now }
    {
        self.is_outside() && self.last.is_none()
    }

    // What a block says, once its body's node is known.
    fn end_block(&mut self, head: Head, body: i64) -> Result<(), AllocError>
        ensures { OnOk result (self.new ≡ ended head body self.old) }
    {
        match head {
            Head::Lines(block) => self.put(Node::Lines(block, body)),
            Head::SubProgram => {
                self.subs.push(body)?;
                Ok(())
            }
        }
    }

    // Ends the innermost block: its line comes behind the lines before it.
    pub fn close(&mut self) -> Result<Phase, Failed<Misplaced>>
        ensures { Stepped (closed self.old.blocks self.old) result self.old self.new }
    {
        let opened = self.blocks.pop().ok_or(Misplaced)?;
        let body = self.body()?;
        self.last = opened.before;
        self.end_block(opened.head, body)?;
        Ok(Phase::Line)
    }

    // What may follow `sub` and a name: a sub-program uses only those before it.
    pub fn name(&self, name: i64) -> Result<Phase, Failed<Misplaced>>
        ensures { Stepped (named (size name) self.now) result self.now self.now }
    {
        let name = count(name) as usize;
        match self.subs.get(name) {
            Some(body) => Ok(Phase::UseEnd(*body)),
            None if name == self.subs.len() && self.is_fresh() => {
                Ok(Phase::Brace(Head::SubProgram))
            }
            None => Err(Failed::Refused(Misplaced)),
        }
    }

    // What could stand next.
    pub fn expected(&self, phase: Phase) -> Expected
        ensures { result ≡ expected_of phase self.now }
    {
        match phase {
            Phase::Line if self.is_outside() => Expected::Line,
            Phase::Line => Expected::LineOrClose,
            Phase::MoveX(_) | Phase::MoveY(_, _) | Phase::MoveSpeed(_, _, _) => Expected::Number,
            Phase::OffsetX | Phase::OffsetY(_) => Expected::Number,
            Phase::MoveFast(_, _, _) => Expected::Fast,
            Phase::MoveEnd(_, _, _, _) | Phase::UseEnd(_) => Expected::Semicolon,
            Phase::Count(_) => Expected::Times,
            Phase::Name => Expected::Name,
            Phase::Brace(_) => Expected::Open,
        }
    }

    // The whole program's nodes, where the text may end.
    pub fn finish(mut self, phase: Phase) -> Result<Vec<i64>, Failed<Misplaced>>
        ensures { Finished (at_end phase self) result }
    {
        match phase {
            Phase::Line if self.is_outside() => {
                self.body()?;
                let Draft { nodes, .. } = self;
                Ok(nodes)
            }
            _ => Err(Failed::Refused(Misplaced)),
        }
    }
}
