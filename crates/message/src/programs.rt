// Why a part program is refused, once its text is read.
use refusal::Refusal;
use std::fmt;

// A refusal, and the number that its place points at, if it is about one.
#[derive(Drop)]
pub struct ProgramSentence(pub Refusal, pub Option<i64>);

impl fmt::Display for ProgramSentence {
    fn fmt<W: fmt::Write>(&self, f: &mut fmt::Formatter<W>) -> fmt::Result {
        let ProgramSentence(refusal, found) = *self;
        write!(f, "refused {refusal}: ")?;
        match (refusal, found) {
            (Refusal::Shape(numbers), _) => write!(
                f,
                "the program has {} nodes, and 1024 fit (512 plain lines)",
                numbers / 4
            ),
            (Refusal::Number(_), Some(n)) => write!(f, "the number {n} is past 1000000"),
            (Refusal::Number(_), None) => f.write_str("a number is past 1000000"),
            (Refusal::Room(count), _) => write!(
                f,
                "the program says {count} targets, and 16777216 fit"
            ),
            (Refusal::Reach(target), _) => write!(
                f,
                "the program's target {} is farther than 1000000000 on an axis",
                target.saturating_add(1)
            ),
            _ => f.write_str("the program's numbers can't be taken"),
        }
    }
}
