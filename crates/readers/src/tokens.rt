// Why a token is refused, and what is said of all tokens.
ghost use Rattle.std.specs.Prelude.{◌≡◌};
ghost use Rattle.readers.specs.Refusals.{number_of};

// Why a token is refused: it has no place here, or constructs stand too deep inside each other.
#[derive(Clone, Copy, PartialEq, Eq)]
pub enum Why {
    Unexpected,
    TooDeep,
}

impl Why {
    // The number of the refusal: 4 or 5.
    pub fn number(self) -> usize
        ensures { result ≡ number_of self }
    {
        match self {
            Why::Unexpected => 4,
            Why::TooDeep => 5,
        }
    }
}

// A refusal, at the token `at`.
#[derive(Clone, Copy)]
pub struct Refused {
    pub why: Why,
    pub at: usize,
}

// `at` is the next token, and `value` where the next event of the tape goes.
#[derive(Clone, Copy)]
pub struct Read {
    pub at: usize,
    pub value: usize,
}
