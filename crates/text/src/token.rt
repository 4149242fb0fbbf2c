// A word of the text, and what it says.
ghost use Rattle.std.specs.Prelude.{◌≡◌};
ghost use Rattle.std.specs.Option.{ok_or};
ghost use Rattle.text.specs.Tokens.{value_of, is_key, only, misplaced};
ghost use Rattle.text.specs.Words.{key_of, token_of};

use crate::error::Misplaced;
use word::number;

#[derive(Clone, Copy, PartialEq, Eq)]
pub enum Key {
    To,
    By,
    Fast,
    Times,
    At,
    Turn,
    Mirror,
    Sub,
    Semicolon,
    Open,
    Close,
}

#[derive(Clone, Copy, PartialEq, Eq)]
pub enum Token {
    Number(i64),
    Word(Key),
    Other,
}

impl From<&[u8]> for Token {
    ghost from_gives = { λ word t. t ≡ token_of word.now };

    // What a word says.
    fn from(word: &[u8]) -> Token {
        match number(word) {
            Some(n) => Token::Number(n),
            None => Token::of_no_number(word),
        }
    }
}

impl Token {
    fn of_no_number(word: &[u8]) -> Token
        ensures { result ≡ key_of word.now }
    {
        match word {
            b"to" => Token::Word(Key::To),
            b"by" => Token::Word(Key::By),
            b"fast" => Token::Word(Key::Fast),
            b"times" => Token::Word(Key::Times),
            b"at" => Token::Word(Key::At),
            b"turn" => Token::Word(Key::Turn),
            b"mirror" => Token::Word(Key::Mirror),
            b"sub" => Token::Word(Key::Sub),
            b";" => Token::Word(Key::Semicolon),
            b"{" => Token::Word(Key::Open),
            b"}" => Token::Word(Key::Close),
            _ => Token::Other,
        }
    }

    // Its number.
    pub fn number(self) -> Result<i64, Misplaced>
        ensures { result ≡ ok_or (value_of self) misplaced }
    {
        match self {
            Token::Number(n) => Ok(n),
            _ => Err(Misplaced),
        }
    }

    // Only this word.
    pub fn expect(self, key: Key) -> Result<(), Misplaced>
        ensures { result ≡ ok_or (only (is_key key self)) misplaced }
    {
        if self == Token::Word(key) {
            Ok(())
        } else {
            Err(Misplaced)
        }
    }
}
