// The tokens of a text: document 01, "Text and tokens". What a reader of them answers; the kinds of tokens as numbers.
#![tactic(auto)]

pub mod kinds;

ghost use Rattle.std.specs.Prelude.{◌≡◌};
ghost use Rattle.token.specs.Text.{number_of};
ghost use Rattle.token.specs.Answers.{refusal_of};

use spots::{Spot, unplaced};

// "source over 32,768 bytes".
pub const TEXT_LIMIT: usize = 32768;

// What stands at the front of what remains of a text: a gap between tokens, with its bytes; or a token, with its kind, value and bytes.
#[derive(Clone, Copy)]
pub enum Lexeme {
    Gap(usize),
    Token(u8, u64, usize),
}

// Why the language has nothing that stands there: "byte in no token, unclosed comment"; "number out of range".
#[derive(Clone, Copy)]
pub enum Why {
    NoToken,
    OutOfRange,
}

impl Why {
    // The paper's number.
    pub fn number(self) -> usize
        ensures { result ≡ number_of self }
    {
        match self {
            Why::NoToken => 2,
            Why::OutOfRange => 3,
        }
    }
}

// A token: its kind, one of `kinds`; its value, a number's 32 bits or a name's key; its place, line and column in the text.
#[derive(Clone, Copy)]
pub struct Token {
    pub kind: u8,
    pub value: u64,
    pub spot: Spot,
}

// Why there is no next token, and where.
#[derive(Clone, Copy)]
pub struct Refusal {
    pub why: Why,
    pub spot: Spot,
}

// Why the tokens of a text are not read: it is too long; or one is refused; or the lent lists have to be longer, and how long.
#[derive(Clone, Copy)]
pub enum Unread {
    TooLong,
    Refused(Refusal),
    Room(usize),
}

impl Unread {
    // The paper's number; for the lent lists, as with its own buffer, 16.
    pub fn number(self) -> usize
        ensures { result ≡ (refusal_of self).number }
    {
        match self {
            Unread::TooLong => 1,
            Unread::Refused(refusal) => refusal.why.number(),
            Unread::Room(_) => 16,
        }
    }

    // Where that is; for the lent lists the length that is needed.
    pub fn spot(self) -> Spot
        ensures { result ≡ (refusal_of self).spot }
    {
        match self {
            Unread::TooLong => unplaced(TEXT_LIMIT),
            Unread::Refused(refusal) => refusal.spot,
            Unread::Room(needed) => unplaced(needed),
        }
    }
}
