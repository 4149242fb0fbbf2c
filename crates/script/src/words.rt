// The words of a line, which are apart by spaces, tabs or carriage returns, and what some of them have to be.
ghost use Rattle.std.specs.Prelude.{◌≡◌, Ok, Err, MatchResult};
ghost use Rattle.std.specs.List.{prefix_len};
ghost use Rattle.script.specs.Words.{gap, letter, words};
ghost use Rattle.script.specs.Orders.{Reads, misread, numbered, ended, last_of, speed_of};

use crate::fault::{Expected, Wrong};
use std::marker::Model;
use word::number;

// The words that are left of a line: in contracts, the list of them.
#[derive(Drop)]
pub struct Words<'a> {
    rest: &'a [u8],
}

impl<'a> Model for Words<'a> {
    ghost use Rattle.std.specs.Prelude.{ℕ, List};
    ghost use Rattle.script.specs.Words.{words};

    ghost Value = { List (List ℕ) };

    ghost view = { λ a. words a.rest.now };
}

impl<'a> Words<'a> {
    pub fn of(line: &'a [u8]) -> Words<'a>
        ensures { result ≡ words line.now }
    {
        Words { rest: line }
    }

    // The next word, which has to be a number.
    pub fn number(&mut self) -> Result<i64, Wrong<'a>>
        ensures { MatchResult result (λ n. numbered self.old ≡ Ok (n, self.new)) (λ e. numbered self.old ≡ Err (misread e)) }
    {
        let found = self.next();
        found.and_then(number).ok_or(Wrong {
            found,
            expected: Expected::Number,
        })
    }

    // What was read, if no word stands behind it.
    pub fn ended<T: Drop>(mut self, read: T) -> Result<T, Wrong<'a>>
        ensures { Reads (ended self.entry read) result }
    {
        match self.next() {
            None => Ok(read),
            found => Err(Wrong {
                found,
                expected: Expected::End,
            }),
        }
    }

    // The number that the line ends with.
    pub fn last_number(mut self) -> Result<i64, Wrong<'a>>
        ensures { Reads (last_of self.entry) result }
    {
        let n = self.number()?;
        self.ended(n)
    }

    // The number behind the word `fast`, that the line ends with.
    pub fn speed(mut self) -> Result<i64, Wrong<'a>>
        ensures { Reads (speed_of self.entry) result }
    {
        match self.next() {
            Some(b"fast") => self.last_number(),
            found => Err(Wrong {
                found,
                expected: Expected::Fast,
            }),
        }
    }
}

impl<'a> Iterator for Words<'a> {
    type Item = &'a [u8];

    ghost use Rattle.std.specs.Iterator.{YieldsFirstRef, item_count};

    ghost next_gives = { YieldsFirstRef (λ s. s) };

    ghost remaining = { item_count (λ s. s) };

    fn next(&mut self) -> Option<&'a [u8]> {
        // So it is behind the last word of a line, and in a line of no bytes.
        if self.rest.is_empty() {
            return None;
        }
        let (_, from) = self.rest.split_at(gap_len(self.rest));
        let (word, rest) = from.split_at(word_len(from));
        self.rest = rest;
        if word.is_empty() {
            return None;
        }
        Some(word)
    }
}

// How many gaps a line begins with.
fn gap_len(line: &[u8]) -> usize
    ensures { result ≡ prefix_len gap line.now }
{
    line.iter().take_while(|b| is_gap(**b)).count()
}

// How long the word is that a line begins with.
fn word_len(line: &[u8]) -> usize
    ensures { result ≡ prefix_len letter line.now }
{
    line.iter().take_while(|b| !is_gap(**b)).count()
}

fn is_gap(b: u8) -> bool
    ensures { result ≡ gap b }
{
    b == b' ' || b == b'\t' || b == b'\r'
}
