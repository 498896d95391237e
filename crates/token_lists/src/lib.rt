// All tokens of a text, into lent lists: document 01, "Text and tokens", and refusals 1 to 3.
#![tactic(auto)]

ghost use Rattle.std.specs.Prelude.{◌≡◌, ◌≤◌, ◌<◌, length, get_or, [], ◌∷◌, map};
ghost use Rattle.spots.specs.Spots.{unplaced as unplaced_at};
ghost use Rattle.spots.specs.Going.{Near};
ghost use Rattle.token.specs.Text as T;
ghost use Rattle.token.specs.Answers.{summary_of, summed, spot_of, lists, room, laid_from, Laid, Kinds, read_into, tokens_into};

use base::put_byte;
use scanner::next_token;
use spots::{Spot, along, first, onward, spot_at, unplaced};
pub use token::TEXT_LIMIT;
use token::{Refusal, Token, Unread, kinds};

pub fn is_last(kind: u8) -> bool
    ensures { result ≡ T.is_last kind }
{
    (kind == kinds::AT) | (kind == kinds::END_OF_TEXT)
}

// ── every part of each token ──

// One token, laid over row n.
fn lay_token(
    t: Token,
    n: usize,
    kinds: &mut [u8],
    values: &mut [u64],
    places: &mut [u32],
    lines: &mut [u32],
    columns: &mut [u32],
)
    requires { (n < room (lists kinds.old values.old places.old lines.old columns.old))
        × Near t.spot × (t.spot.place ≤ T.TEXT-LIMIT) }
    ensures { lists kinds.new values.new places.new lines.new columns.new
        ≡ laid_from n (t ∷ []) (lists kinds.old values.old places.old lines.old columns.old) }
{
    let spot = t.spot;
    kinds[n] = t.kind;
    values[n] = t.value;
    places[n] = spot.place as u32;
    lines[n] = spot.line as u32;
    columns[n] = spot.column as u32;
}

// The tokens of a text, laid over lists with room for them, one after the other as far as a refusal. No token ends a line.
fn lay_tokens(
    src: &[u8],
    kinds: &mut [u8],
    values: &mut [u64],
    places: &mut [u32],
    lines: &mut [u32],
    columns: &mut [u32],
) -> Result<usize, Unread>
    requires { (length src.now ≤ T.TEXT-LIMIT)
        × (length (T.read_from src.now 0 0 src.now).tokens ≤ room (lists kinds.old values.old places.old lines.old columns.old)) }
    ensures { Laid (T.read_from src.now 0 0 src.now)
        (lists kinds.old values.old places.old lines.old columns.old)
        (lists kinds.new values.new places.new lines.new columns.new) result }
{
    let mut at = first();
    let mut n: usize = 0;
    loop {
        let from = at.place;
        let next = next_token(&src[from..]);
        match next {
            Ok((t, end)) => {
                let spot = onward(at, t.spot);
                lay_token(
                    Token { spot, ..t },
                    n,
                    kinds,
                    values,
                    places,
                    lines,
                    columns,
                );
                n += 1;
                if is_last(t.kind) {
                    return Ok(n);
                }
                at = along(spot, end - t.spot.place);
            }
            Err(refusal) => {
                let spot = onward(at, refusal.spot);
                return Err(Unread::Refused(Refusal { spot, ..refusal }));
            }
        }
    }
}

fn room_in(kinds: &[u8], values: &[u64], places: &[u32], lines: &[u32], columns: &[u32]) -> usize
    ensures { result ≡ room (lists kinds.now values.now places.now lines.now columns.now) }
{
    let placed = places.len().min(lines.len().min(columns.len()));
    kinds.len().min(values.len().min(placed))
}

// The tokens of a text into lent lists, in one pass: those before a refusal are laid.
pub fn read_tokens(
    src: &[u8],
    kinds: &mut [u8],
    values: &mut [u64],
    places: &mut [u32],
    lines: &mut [u32],
    columns: &mut [u32],
) -> Result<usize, Unread>
    ensures { let before = lists kinds.old values.old places.old lines.old columns.old in
        Laid (read_into (room before) src.now) before
        (lists kinds.new values.new places.new lines.new columns.new) result }
{
    if TEXT_LIMIT < src.len() {
        return Err(Unread::TooLong);
    }
    if room_in(kinds, values, places, lines, columns) <= src.len() {
        return Err(Unread::Room(src.len() + 1));
    }
    lay_tokens(src, kinds, values, places, lines, columns)
}

// The tokens of a text into lent lists, which a refusal leaves as they are.
pub fn tokens_of(
    src: &[u8],
    kinds: &mut [u8],
    values: &mut [u64],
    places: &mut [u32],
    lines: &mut [u32],
    columns: &mut [u32],
) -> Result<usize, Unread>
    ensures { let before = lists kinds.old values.old places.old lines.old columns.old in
        Laid (tokens_into (room before) src.now) before
        (lists kinds.new values.new places.new lines.new columns.new) result }
{
    let count = check_text(src)?;
    if room_in(kinds, values, places, lines, columns) < count {
        return Err(Unread::Room(count));
    }
    lay_tokens(src, kinds, values, places, lines, columns)
}

// ── kinds alone, and where one token stands ──

// The kinds of a text's tokens, laid over a list as far as there is room, one after the other as far as a refusal.
fn lay_kinds(src: &[u8], kinds: &mut [u8]) -> Result<usize, Unread>
    requires { length src.now ≤ T.TEXT-LIMIT }
    ensures { Kinds (T.read_from src.now 0 0 src.now) kinds.old kinds.new result }
{
    let mut at: usize = 0;
    let mut n: usize = 0;
    loop {
        let next = next_token(&src[at..]);
        match next {
            Ok((t, end)) => {
                let kind = t.kind;
                put_byte(kinds, n, kind);
                n += 1;
                if is_last(kind) {
                    return Ok(n);
                }
                at += end;
            }
            Err(refusal) => {
                let spot = spot_at(src, at + refusal.spot.place);
                return Err(Unread::Refused(Refusal { spot, ..refusal }));
            }
        }
    }
}

// How many tokens a text has, or its refusal.
pub fn check_text(src: &[u8]) -> Result<usize, Unread>
    ensures { summary_of result ≡ summed (T.tokens_of src.now) }
{
    if TEXT_LIMIT < src.len() {
        return Err(Unread::TooLong);
    }
    let mut unread = [0u8; 1];
    lay_kinds(src, &mut unread)
}

// The kinds of a text's tokens into a lent list, in one pass: those before a refusal are laid.
pub fn read_kinds(src: &[u8], kinds: &mut [u8]) -> Result<usize, Unread>
    ensures { Kinds (read_into (length kinds.old) src.now) kinds.old kinds.new result }
{
    if TEXT_LIMIT < src.len() {
        return Err(Unread::TooLong);
    }
    let needed = src.len() + 1;
    if kinds.len() < needed {
        return Err(Unread::Room(needed));
    }
    lay_kinds(src, kinds)
}

// Where a token of a text that was read stands; the text is read again as far as that.
pub fn spot_in(src: &[u8], wanted: usize) -> Spot
    requires { (T.tokens_of src.now).number ≡ 0 }
    ensures { result ≡ get_or (map spot_of (T.tokens_of src.now).tokens) wanted (unplaced_at 0) }
{
    let mut at: usize = 0;
    let mut n: usize = 0;
    loop {
        let next = next_token(&src[at..]);
        match next {
            Ok((t, end)) => {
                if n == wanted {
                    return spot_at(src, at + t.spot.place);
                }
                if is_last(t.kind) {
                    return unplaced(0);
                }
                n += 1;
                at += end;
            }
            Err(_) => return unplaced(0),
        }
    }
}
