// Names and labels: which declaration each name means, refusals 6, 7 and 13.
#![tactic(auto)]

ghost use Rattle.std.specs.Prelude.{◌≡◌};
ghost use Rattle.scopes.specs.Broken.{refusal_number, rule as rule_of, broken, ◌⊕◌};

// "6 to 13": what a rule is refused with. The smaller number comes first.
#[derive(Clone, Copy, PartialEq, Eq, PartialOrd, Ord)]
pub enum Refusal {
    NotFound = 6,
    Twice = 7,
    Misfit = 8,
    WrongRegister = 9,
    Protected = 10,
    OutOfBounds = 11,
    NoRoom = 12,
    TooMany = 13,
}

impl Refusal {
    pub fn number(self) -> usize
        ensures { result ≡ refusal_number self }
    {
        self as usize
    }

    // A rule that is broken at a token.
    pub fn at(self, token: usize) -> Option<Broken>
        ensures { result ≡ broken self token }
    {
        Some(Broken {
            at: token,
            refusal: self,
        })
    }
}

// A broken rule: its token, and its refusal. Of several the least is answered: "the smallest place wins, then the smaller number".
#[derive(Clone, Copy, PartialEq, Eq, PartialOrd, Ord)]
pub struct Broken {
    pub at: usize,
    pub refusal: Refusal,
}

// How many names were declared, or labels set, and the broken rule that is answered.
#[derive(Clone, Copy)]
pub struct Noted {
    pub count: usize,
    pub broken: Option<Broken>,
}

// A refusal at a token, unless the rule holds.
pub fn rule(holds: bool, refusal: Refusal, token: usize) -> Option<Broken>
    ensures { result ≡ rule_of holds refusal token }
{
    if holds { None } else { refusal.at(token) }
}

// Which of two is answered.
pub fn join(a: Option<Broken>, b: Option<Broken>) -> Option<Broken>
    ensures { result ≡ a ⊕ b }
{
    match b {
        None => a,
        Some(y) => match a {
            None => b,
            Some(x) => Some(x.min(y)),
        },
    }
}

// A ruling joined to what is answered so far, where that stands: mostly nothing is broken, and then nothing is moved.
pub fn join_to(least: &mut Option<Broken>, b: Option<Broken>)
    ensures { least.new ≡ least.old ⊕ b }
{
    match b {
        None => {}
        Some(y) => match *least {
            None => *least = b,
            Some(x) => {
                if y < x {
                    *least = b;
                }
            }
        },
    }
}
