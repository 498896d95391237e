// The token reader and the grammar for C and Rust, on numbers and slices alone. The number is answered; place, line and column are left where the caller says,
// for tokens also how many there are.
#![tactic(auto)]

ghost use Rattle.std.specs.Prelude.{◌≡◌};
ghost use Rattle.token.specs.Answers.{lists, read_into, room, summary_of, tokens_into};
ghost use Rattle.parse.specs.Programs.{judged};
ghost use Rattle.c_text.specs.Lent.{Lent, judged_in, parts_of};

use token::Unread;

// Kept: C is answered a number, and the parts of an answer in one list.
fn number_of(read: Result<usize, Unread>) -> u64
    ensures { result ≡ (summary_of read).number }
{
    match read {
        Ok(_) => 0,
        Err(unread) => unread.number() as u64,
    }
}

fn parts_of(read: Result<usize, Unread>) -> [usize; 4]
    ensures { result ≡ parts_of (summary_of read) }
{
    match read {
        Ok(count) => [0, 0, 0, count],
        Err(unread) => {
            let spot = unread.spot();
            [spot.place, spot.line, spot.column, 0]
        }
    }
}

// `token_lists::tokens_of`.
// Kept: beside `tautgaff_read_tokens`, since C knows both names.
pub fn tautgaff_tokens(
    text: &[u8],
    kinds: &mut [u8],
    values: &mut [u64],
    places: &mut [u32],
    lines: &mut [u32],
    columns: &mut [u32],
    told: &mut [usize; 4],
) -> u64
    ensures { let before = lists kinds.old values.old places.old lines.old columns.old in
        Lent (tokens_into (room before) text.now) before
        (lists kinds.new values.new places.new lines.new columns.new) result told.new }
{
    let read = token_lists::tokens_of(text, kinds, values, places, lines, columns);
    *told = parts_of(read);
    number_of(read)
}

// `token_lists::read_tokens`.
pub fn tautgaff_read_tokens(
    text: &[u8],
    kinds: &mut [u8],
    values: &mut [u64],
    places: &mut [u32],
    lines: &mut [u32],
    columns: &mut [u32],
    told: &mut [usize; 4],
) -> u64
    ensures { let before = lists kinds.old values.old places.old lines.old columns.old in
        Lent (read_into (room before) text.now) before
        (lists kinds.new values.new places.new lines.new columns.new) result told.new }
{
    let read = token_lists::read_tokens(text, kinds, values, places, lines, columns);
    *told = parts_of(read);
    number_of(read)
}

// `parse::grammatical`.
pub fn tautgaff_grammatical(text: &[u8], told: &mut [usize; 3]) -> u64
    ensures { judged_in result told.new ≡ judged text.now }
{
    let said = text_cases::judge(text);
    let spot = said.spot;
    *told = [spot.place, spot.line, spot.column];
    said.number
}
