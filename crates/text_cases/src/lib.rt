// A text among others, after a line of numbers the first of which is its length, and what the grammar says of it: number, place, line and column,
// refusals 1 to 5.
#![tactic(auto)]

ghost use Rattle.std.specs.Prelude.{◌≡◌, ◌≤◌, length, IfSome};
ghost use Rattle.parse.specs.Programs.{says, judged};

use lines::decimal;
use parse::Refusal;
use spots::{Spot, unplaced};
use std::ops::Range;
use token_lists::TEXT_LIMIT;

// Number and place of the paper, with line and column.
// Kept: tautgaff_grammatical, which C calls, answers 0 as the number of a program, and its place.
#[derive(Clone, Copy)]
pub struct Said {
    pub number: u64,
    pub spot: Spot,
}

pub fn judge(text: &[u8]) -> Said
    ensures { says result.number result.spot ≡ judged text.now }
{
    match parse::grammatical(text) {
        Ok(()) => Said {
            number: 0,
            spot: unplaced(0),
        },
        Err(refusal) => match refusal {
            Refusal::TooLong => Said {
                number: 1,
                spot: unplaced(TEXT_LIMIT),
            },
            Refusal::NoToken(spot) => Said { number: 2, spot },
            Refusal::OutOfRange(spot) => Said { number: 3, spot },
            Refusal::Unexpected(spot) => Said { number: 4, spot },
            Refusal::TooDeep(spot) => Said { number: 5, spot },
        },
    }
}

// Where the text stands behind its line of numbers, which are put into `fields`, if a whole case with its newline is there.
pub fn text_in(input: &[u8], fields: &mut [u64]) -> Option<Range<usize>>
    ensures { IfSome result (λ text. (text.start ≤ text.end) × (text.end ≤ length input.now)) }
{
    let head = decimal::fields(input, fields)?;
    let length = *fields.first()?;
    let text = &input[head..];
    if text.len() as u64 <= length {
        return None;
    }
    let length = length as usize;
    if text[length] != b'\n' {
        return None;
    }
    Some(head..head + length)
}
