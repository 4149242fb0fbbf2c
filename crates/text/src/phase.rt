// What the next word of a line may be, with the numbers of the line so far.
ghost use Rattle.std.specs.Prelude.{◌≡◌};
ghost use Rattle.text.specs.Nodes.{move_kind};

#[derive(Clone, Copy)]
pub enum Move {
    Absolute,
    Incremental,
}

impl Move {
    // The kind of its node.
    pub fn kind(self) -> i64
        ensures { result ≡ move_kind self }
    {
        match self {
            Move::Absolute => 1,
            Move::Incremental => 2,
        }
    }
}

// Lines in braces: so many times, or in a frame.
#[derive(Clone, Copy)]
pub enum Block {
    Repeat(i64),
    Offset(i64, i64),
    Turned,
    Mirrored,
}

// What stands before a `{`.
#[derive(Clone, Copy)]
pub enum Head {
    Lines(Block),
    SubProgram,
}

#[derive(Clone, Copy)]
pub enum Phase {
    // A line, or what ends the lines.
    Line,
    // Behind `to` or `by`: two numbers, `fast`, a number, `;`.
    MoveX(Move),
    MoveY(Move, i64),
    MoveFast(Move, i64, i64),
    MoveSpeed(Move, i64, i64),
    MoveEnd(Move, i64, i64, i64),
    // Behind a number: `times`.
    Count(i64),
    // Behind `at`: two numbers.
    OffsetX,
    OffsetY(i64),
    // Behind `sub`: a name; behind the name of one that is told already, `;`, with its body's node.
    Name,
    UseEnd(i64),
    // The `{` of a block.
    Brace(Head),
}
