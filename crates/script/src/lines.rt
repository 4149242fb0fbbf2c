// The lines of a script.
ghost use Rattle.std.specs.Prelude.{◌≡◌, ◌==◌};
ghost use Rattle.std.specs.List.{position_from};
ghost use Rattle.script.specs.Words.{lines};

use std::marker::Model;

// The lines that are left of a script: in contracts, the list of them. `split` would give a last one that is empty where a
// line feed ends the script, and would ask at each line whether it was the last.
#[derive(Drop)]
pub struct Lines<'a> {
    rest: &'a [u8],
}

impl<'a> Model for Lines<'a> {
    ghost use Rattle.std.specs.Prelude.{ℕ, List};
    ghost use Rattle.script.specs.Words.{lines};

    ghost Value = { List (List ℕ) };

    ghost view = { λ a. lines a.rest.now };
}

impl<'a> Lines<'a> {
    pub fn of(text: &'a [u8]) -> Lines<'a>
        ensures { result ≡ lines text.now }
    {
        Lines { rest: text }
    }
}

impl<'a> Iterator for Lines<'a> {
    type Item = &'a [u8];

    ghost use Rattle.std.specs.Iterator.{YieldsFirstRef, item_count};

    ghost next_gives = { YieldsFirstRef (λ s. s) };

    ghost remaining = { item_count (λ s. s) };

    fn next(&mut self) -> Option<&'a [u8]> {
        match first_feed(self.rest) {
            Some(end) => {
                let (line, behind) = self.rest.split_at(end);
                let (_, rest) = behind.split_at(1);
                self.rest = rest;
                Some(line)
            }
            None if self.rest.is_empty() => None,
            None => {
                let last = self.rest;
                self.rest = &[];
                Some(last)
            }
        }
    }
}

// Where the first line feed is.
fn first_feed(text: &[u8]) -> Option<usize>
    ensures { result ≡ position_from (λ b. b == 10) 0 text.now }
{
    text.iter().position(|b| *b == b'\n')
}
