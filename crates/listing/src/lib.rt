// A program's listing: its lines one after another, written in one layout. The head of a block and its `}` are lines
// of their own. It knows nothing of how a text is read, or of what its lines do.

#![tactic(auto)]

ghost use Rattle.std.specs.Prelude.{◌≡◌, ◌-◌, ◌^◌, ◌<◌, ◌++◌, IfOk, Some, string_bytes, OnOk};
ghost use Rattle.listing.specs.Writing.{line_text, depth_of, depth_after, indented, whole_line, written};

use std::alloc::{AllocError, Global};
use std::fmt;
use text::{Block, Move};

#[derive(Clone, Copy)]
pub enum Line {
    // `to 10 -5 fast 40;` or `by 3 0 fast 40;`
    Go(Move, i64, i64, i64),
    // `sub 2;`
    Use(i64),
    // `5 times {`, `at 100 0 {`, `turn {` or `mirror {`
    Begin(Block),
    // `sub 2 {`
    BeginSub(i64),
    // `}`
    End,
}

impl Line {
    // How deep it stands behind lines that left off at a depth, and how deep it leaves off.
    fn depth(self, depth: u64) -> u64
        ensures { result ≡ depth_of self depth }
    {
        match self {
            Line::End => depth.saturating_sub(1),
            _ => depth,
        }
    }

    fn after(self, depth: u64) -> u64
        requires { depth < 2 ^ 64 - 1 }
        ensures { result ≡ depth_after self depth }
    {
        match self {
            Line::Begin(_) | Line::BeginSub(_) => depth + 1,
            Line::End => depth.saturating_sub(1),
            _ => depth,
        }
    }

    fn put(self, text: &mut String, depth: u64) -> Result<(), AllocError>
        ensures { OnOk result (string_bytes text.new ≡ string_bytes text.old ++ whole_line depth self) }
    {
        indent(text, self.depth(depth).min(20))?;
        writeln!(text, "{self}")
    }
}

impl fmt::Display for Line {
    ghost output = { λ line. Some (line_text line) };

    fn fmt<W: fmt::Write>(&self, f: &mut fmt::Formatter<W>) -> fmt::Result {
        match *self {
            Line::Go(Move::Absolute, x, y, speed) => write!(f, "to {x} {y} fast {speed};"),
            Line::Go(Move::Incremental, x, y, speed) => write!(f, "by {x} {y} fast {speed};"),
            Line::Use(name) => write!(f, "sub {name};"),
            Line::Begin(Block::Repeat(n)) => write!(f, "{n} times {{"),
            Line::Begin(Block::Offset(x, y)) => write!(f, "at {x} {y} {{"),
            Line::Begin(Block::Turned) => write!(f, "turn {{"),
            Line::Begin(Block::Mirrored) => write!(f, "mirror {{"),
            Line::BeginSub(name) => write!(f, "sub {name} {{"),
            Line::End => write!(f, "}}"),
        }
    }
}

// A program's text, in its one layout: a line each, two blanks deeper in each block, down to the twentieth.
pub fn write(heap: Global, lines: &[Line]) -> Result<String, AllocError>
    ensures { IfOk result (λ s. string_bytes s ≡ written 0 lines.now) }
{
    let mut text = String::new(heap);
    let mut depth: u64 = 0;
    for line in lines {
        line.put(&mut text, depth)?;
        depth = line.after(depth);
    }
    Ok(text)
}

fn indent(text: &mut String, levels: u64) -> Result<(), AllocError>
    ensures { OnOk result (string_bytes text.new ≡ string_bytes text.old ++ indented levels) }
{
    for _ in 0..levels {
        text.push_str("  ")?;
    }
    Ok(())
}
