// Words taken one by one, each by what may stand there.
ghost use Rattle.std.specs.Prelude.{◌≡◌, ◌+◌, ◌≤◌, length};
ghost use Rattle.text.specs.Nodes.{numbers_of};
ghost use Rattle.text.specs.Reading.{Stepped, on_line, begins, line_ends, step, read, Answers, error_of, unreadable};
ghost use Rattle.text.specs.Taking.{found_at};

use crate::draft::Draft;
use crate::error::{Expected, Misplaced, Unreadable};
use crate::node::Node;
use crate::phase::{Block, Head, Move, Phase};
use crate::token::{Key, Token};
use crate::words::{Word, Words};
use refusal::Failed;
use std::alloc::Global;
use word::line_feeds;

impl Draft {
    // The first word of a line, or the end of a block.
    fn begin(&mut self, token: Token) -> Result<Phase, Failed<Misplaced>>
        ensures { Stepped (on_line token self.old) result self.old self.new }
    {
        match token {
            Token::Number(n) => Ok(Phase::Count(n)),
            Token::Word(key) => self.begin_with(key),
            Token::Other => Err(Failed::Refused(Misplaced)),
        }
    }

    fn begin_with(&mut self, key: Key) -> Result<Phase, Failed<Misplaced>>
        ensures { Stepped (begins key self.old) result self.old self.new }
    {
        match key {
            Key::To => Ok(Phase::MoveX(Move::Absolute)),
            Key::By => Ok(Phase::MoveX(Move::Incremental)),
            Key::At => Ok(Phase::OffsetX),
            Key::Turn => Ok(Phase::Brace(Head::Lines(Block::Turned))),
            Key::Mirror => Ok(Phase::Brace(Head::Lines(Block::Mirrored))),
            Key::Sub => Ok(Phase::Name),
            Key::Close => self.close(),
            Key::Fast | Key::Times | Key::Semicolon | Key::Open => Err(Failed::Refused(Misplaced)),
        }
    }

    // The `;` of a line, whose node is then complete.
    fn end_line(&mut self, token: Token, node: Node) -> Result<Phase, Failed<Misplaced>>
        ensures { Stepped (line_ends token (numbers_of node) self.old) result self.old self.new }
    {
        token.expect(Key::Semicolon)?;
        self.put(node)?;
        Ok(Phase::Line)
    }

    // What a word leads to, in a phase.
    pub fn step(&mut self, phase: Phase, token: Token) -> Result<Phase, Failed<Misplaced>>
        ensures { Stepped (step token phase self.old) result self.old self.new }
    {
        match phase {
            Phase::Line => self.begin(token),
            Phase::MoveX(m) => Ok(Phase::MoveY(m, token.number()?)),
            Phase::MoveY(m, x) => Ok(Phase::MoveFast(m, x, token.number()?)),
            Phase::MoveFast(m, x, y) => {
                token.expect(Key::Fast)?;
                Ok(Phase::MoveSpeed(m, x, y))
            }
            Phase::MoveSpeed(m, x, y) => Ok(Phase::MoveEnd(m, x, y, token.number()?)),
            Phase::MoveEnd(m, x, y, speed) => self.end_line(token, Node::Go(m, x, y, speed)),
            Phase::Count(n) => {
                token.expect(Key::Times)?;
                Ok(Phase::Brace(Head::Lines(Block::Repeat(n))))
            }
            Phase::OffsetX => Ok(Phase::OffsetY(token.number()?)),
            Phase::OffsetY(x) => Ok(Phase::Brace(Head::Lines(Block::Offset(x, token.number()?)))),
            Phase::Name => self.name(token.number()?),
            Phase::UseEnd(body) => self.end_line(token, Node::Use(body)),
            Phase::Brace(head) => {
                token.expect(Key::Open)?;
                self.open(head)?;
                Ok(Phase::Line)
            }
        }
    }
}

// The nodes of a program's text, or the first word that can't stand where it stands.
pub fn read(heap: Global, text: &[u8]) -> Result<Vec<i64>, Failed<Unreadable>>
    ensures { Answers (read text.now) result }
{
    let mut draft = Draft::new(heap);
    let mut phase = Phase::Line;
    for word in Words::new(text) {
        match draft.step(phase, Token::from(word.bytes)) {
            Ok(next) => phase = next,
            Err(fault) => return Err(placed(fault, text, word, draft.expected(phase))),
        }
    }
    let expected = draft.expected(phase);
    let end = Word {
        start: text.len(),
        bytes: b"",
    };
    // No `map_err`: a closure that takes the word along promises nothing, so the proof doesn't close.
    match draft.finish(phase) {
        Ok(nodes) => Ok(nodes),
        Err(fault) => Err(placed(fault, text, end, expected)),
    }
}

// The line is counted only where it is told.
fn placed(
    fault: Failed<Misplaced>,
    text: &[u8],
    word: Word,
    expected: Expected,
) -> Failed<Unreadable>
    requires { word.start + length word.bytes.now ≤ length text.now }
    ensures { result ≡ error_of fault (unreadable (found_at text.now word.entry) expected) }
{
    match fault {
        Failed::Refused(Misplaced) => Failed::Refused(Unreadable {
            line: line_feeds(&text[..word.start]),
            start: word.start,
            end: word.start + word.bytes.len(),
            expected,
        }),
        Failed::Memory => Failed::Memory,
    }
}
