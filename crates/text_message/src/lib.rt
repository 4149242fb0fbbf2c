// Plain words for people: where a text can't be read, what stands there and what could. It knows nothing of how a fault
// is found.

#![tactic(auto)]

ghost use Rattle.std.specs.Prelude.{◌≡◌, Some};
ghost use Rattle.text_message.specs.Explaining.{expected_text, printing, shown_byte, closing_text, shown_word, word_at, sentence};

use std::fmt;
use text::{Expected, Unreadable};

// One sentence, as "line 3: found `fats`, expected `fast`", with lines as an editor counts them.
#[derive(Clone, Copy)]
pub struct TextSentence<'a> {
    pub text: &'a [u8],
    pub fault: Unreadable,
}

impl fmt::Display for TextSentence<'_> {
    ghost output = { λ s. Some (sentence s.text.now s.fault) };

    fn fmt<W: fmt::Write>(&self, f: &mut fmt::Formatter<W>) -> fmt::Result {
        let line = self.fault.line.saturating_add(1);
        let word = Word(word_at(self.text, self.fault.start, self.fault.end));
        let expected = expected_words(self.fault.expected);
        write!(f, "line {line}: found {word}, expected {expected}")
    }
}

fn word_at(text: &[u8], start: usize, end: usize) -> &[u8]
    ensures { result.now ≡ word_at text.now start end }
{
    let end = end.min(text.len());
    let start = start.min(end);
    &text[start..end]
}

// At most 40 bytes of it; no bytes are the end of the text.
#[derive(Clone, Copy)]
struct Word<'a>(&'a [u8]);

impl fmt::Display for Word<'_> {
    ghost output = { λ w. Some (shown_word w.0.now) };

    fn fmt<W: fmt::Write>(&self, f: &mut fmt::Formatter<W>) -> fmt::Result {
        if self.0.is_empty() {
            return write!(f, "the end of the text");
        }
        write!(f, "`")?;
        for b in &self.0[..self.0.len().min(40)] {
            let byte = Byte(*b);
            write!(f, "{byte}")?;
        }
        f.write_str(closing(self.0.len()))
    }
}

fn closing(len: usize) -> &'static str
    ensures { result.now ≡ closing_text len }
{
    if len > 40 { "..`" } else { "`" }
}

// A byte that doesn't print is shown by its number, as `\x0c`.
#[derive(Clone, Copy)]
struct Byte(u8);

impl fmt::Display for Byte {
    ghost output = { λ b. Some (shown_byte b.0) };

    fn fmt<W: fmt::Write>(&self, f: &mut fmt::Formatter<W>) -> fmt::Result {
        let b = self.0;
        if prints(b) {
            f.write_char(char::from(b))
        } else {
            write!(f, "\\x{b:02x}")
        }
    }
}

fn prints(b: u8) -> bool
    ensures { result ≡ printing b }
{
    b > b' ' && b < 127
}

fn expected_words(expected: Expected) -> &'static str
    ensures { result.now ≡ expected_text expected }
{
    match expected {
        Expected::Line => "the first word of a line",
        Expected::LineOrClose => "the first word of a line, or `}`",
        Expected::Number => "a number",
        Expected::Fast => "`fast`",
        Expected::Semicolon => "`;`",
        Expected::Times => "`times`",
        Expected::Name =>
            "the number of a sub-program above, or the next one's before all other lines",
        Expected::Open => "`{`",
    }
}
