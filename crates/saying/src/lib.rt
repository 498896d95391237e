// What the command says of a refusal and of a wrong word, and its exit status: 0 accepted, ended, same; 1 refused or different; 2 wrong use, or a file that
// cannot be read or written; 3 the budget is used up; 4 stopped by 2, 3 or 4.
#![tactic(auto)]

ghost use Rattle.std.specs.Prelude.{◌≡◌};
ghost use Rattle.saying.specs.Statuses.{code_of, status_of};

use files::Host;
use spots::Spot;

// Exit statuses, from the best to the worst.
#[derive(Clone, Copy, PartialEq, Eq, PartialOrd, Ord)]
pub enum ExitStatus {
    Done,
    Refused,
    Wrong,
    BudgetUsed,
    Stopped,
}

impl From<ExitStatus> for u8 {
    ghost from_gives = { λ status n. n ≡ code_of status };

    fn from(status: ExitStatus) -> u8 {
        status as u8
    }
}

// A message has a file's name and less than 1,000 bytes more, a page of help less than 3,000.
pub const MESSAGE_ROOM: usize = 8192;

// The status, if all that was to be said was written.
pub fn said(whole: bool, status: ExitStatus) -> ExitStatus {
    if whole { status } else { ExitStatus::Wrong }
}

// A refusal, on standard error.
pub fn refuse<R: Host>(rt: &R, name: &[u8], number: usize, spot: Spot, text: &[u8]) -> ExitStatus {
    let mut out = [0u8; MESSAGE_ROOM];
    let n = messages::message(&mut out, name, number, spot, text);
    files::complain(rt, figures::front(&out, n));
    ExitStatus::Refused
}

// On standard output, where it is what was asked for.
pub fn tell_refusal<R: Host>(
    rt: &R,
    name: &[u8],
    number: usize,
    spot: Spot,
    text: &[u8],
) -> ExitStatus {
    let mut out = [0u8; MESSAGE_ROOM];
    let n = messages::message(&mut out, name, number, spot, text);
    said(
        files::print(rt, figures::front(&out, n)),
        ExitStatus::Refused,
    )
}

// Of a word that is wrong so many bytes are shown.
const WORD_SHOWN: usize = 4000;

// A word that is wrong, on standard error.
// Kept: the number of a fault, here, and of a stop in `status`: they answer for any number, and a narrower type asks more of who calls.
pub fn complain<R: Host>(rt: &R, words: &[u8], word: usize, why: usize) -> ExitStatus {
    let mut out = [0u8; MESSAGE_ROOM];
    let shown = figures::front(figures::part(words, 0, word), WORD_SHOWN);
    let n = messages::fault(&mut out, shown, why);
    files::complain(rt, figures::front(&out, n));
    ExitStatus::Wrong
}

// Of a run, by the number of its stop.
pub fn status(stop: usize) -> ExitStatus
    ensures { result ≡ status_of stop }
{
    match stop {
        0 => ExitStatus::BudgetUsed,
        1 => ExitStatus::Done,
        _ => ExitStatus::Stopped,
    }
}
