// The words of a text, one after another.
ghost use Rattle.std.specs.Prelude.{◌-◌, ◌≤◌, length};

use crate::scanner::{Kind, run_of, word_len};

// A word, and where it starts in the text.
#[derive(Clone, Copy)]
pub struct Word<'a> {
    pub start: usize,
    pub bytes: &'a [u8],
}

// The words from a place on.
#[derive(Drop)]
pub struct Words<'a> {
    text: &'a [u8],
    at: usize,
    ghost within: { at ≤ length text.now },
}

impl<'a> Words<'a> {
    ghost use Rattle.std.specs.Prelude.{◌≡◌};

    pub fn new(text: &'a [u8]) -> Words<'a>
        ensures all { result.at ≡ 0 }
        ensures text { result.text ≡ text.entry }
    {
        Words { text, at: 0 }
    }
}

impl<'a> Iterator for Words<'a> {
    ghost use Rattle.std.specs.Iterator.{at_most};
    ghost use Rattle.text.specs.Taking.{GivesWord};

    type Item = Word<'a>;

    ghost next_gives = { GivesWord };

    ghost remaining = { λ s. at_most (length s.text.now - s.at) };

    fn next(&mut self) -> Option<Word<'a>> {
        let (_, rest) = self.text.split_at(self.at);
        let (gap, rest) = rest.split_at(run_of(Kind::Gap, rest));
        let (bytes, _) = rest.split_at(word_len(rest));
        if bytes.is_empty() {
            return None;
        }
        let start = self.at + gap.len();
        self.at = start + bytes.len();
        Some(Word { start, bytes })
    }
}
