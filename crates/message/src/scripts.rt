// Why a script is refused.
use refusal::Failed;
use script::{Expected, Fault, ScriptError, Wrong};
use std::fmt;

// How much of a word a sentence shows.
const SHOWN: usize = 40;

// Why a script is refused, as it is printed.
#[derive(Drop)]
pub struct Sentence<'a>(pub Failed<ScriptError<'a>>);

impl fmt::Display for Sentence<'_> {
    fn fmt<W: fmt::Write>(&self, f: &mut fmt::Formatter<W>) -> fmt::Result {
        let Failed::Refused(error) = &self.0 else {
            return f.write_str("there is not enough memory for the script");
        };
        write!(f, "refused {}: ", error.refusal())?;
        match error {
            ScriptError::Text(line, wrong) => {
                // As an editor counts lines.
                write!(f, "line {}: ", line.saturating_add(1))?;
                show_wrong(wrong, f)
            }
            ScriptError::Number(fault) => show_fault(*fault, f),
        }
    }
}

// A word is shown up to a length that fits into a sentence.
fn show_wrong<W: fmt::Write>(wrong: &Wrong<'_>, f: &mut fmt::Formatter<W>) -> fmt::Result {
    write!(f, "expected {}", words(wrong.expected))?;
    match wrong.found {
        Some(word) => {
            let shown = &word[..word.len().min(SHOWN)];
            write!(f, ", found `{}`", shown.escape_ascii())
        }
        None => f.write_str(", but nothing more stands there"),
    }
}

fn words(expected: Expected) -> &'static str {
    match expected {
        Expected::Machine => "`machine` with a change of speed and a top speed",
        Expected::Order => "`to`, `tick`, `hold`, `go`, `knob` or `where`",
        Expected::Number => "a number",
        Expected::Fast => "`fast`",
        Expected::End => "the end of the line",
    }
}

fn show_fault<W: fmt::Write>(fault: Fault, f: &mut fmt::Formatter<W>) -> fmt::Result {
    match fault {
        Fault::Change(n) => write!(f, "a change of speed of {n} is not from 1 to 1000000"),
        Fault::Top(n) => write!(f, "a top speed of {n} is not from 1 to 1000000"),
        Fault::Far(place) => write!(
            f,
            "the target {place} is farther than 1000000000 on an axis"
        ),
        Fault::Knob(n) => write!(f, "the knob at {n} percent is above 1000"),
    }
}
