// Document 01, "Numbers answered": the translation of a text into a buffer, the groups of refusals in order. Nothing is written to the buffer before every
// refusal is decided.
#![tactic(auto)]

ghost use Rattle.std.specs.Prelude.{◌≡◌, ◌+◌, ◌*◌, ◌≤◌, length, take};
ghost use Rattle.token.specs.Text.{tokens_of, TEXT-LIMIT};
ghost use Rattle.grammar.specs.Grammar.{nesting};
ghost use Rattle.scopes.specs.Search.{first_token};
ghost use Rattle.ledger.specs.Book.{wide_of, thin_of};
ghost use Rattle.ledger.specs.Bounds.{Narrow, Nested};
ghost use Rattle.translation.specs.Translate.{translate as translation, reports_none, spot_for};
ghost use Rattle.settled.specs.Texts.{Lent, Fits, Rooms, rows_for};
ghost use Rattle.made.specs.Answers.{Gives};
ghost use Rattle.translate.specs.Answers.{outcome, defined, stood};
ghost use Rattle.translate.specs.Groups.{OnTokens, OnTape};

use ledger::clear_written;
use settled::{FIRST_TOKEN, MORE_ROWS, TEXT_LIMIT, place_of};
use spots::{Spot, spot_at, unplaced};

// A refusal's number and where it stands.
#[derive(Clone, Copy)]
pub struct Refused {
    pub number: usize,
    pub spot: Spot,
}

// The bytes written, or a refusal.
pub type Answer = Result<usize, Refused>;

// ── the groups ──

// The rest of the groups, of a program that is on the tape: 6 to 13, then 14, 15, 16.
fn translate_tape(
    src: &[u8],
    tape: &[u32],
    kinds: &[u8],
    wide: &mut [u64],
    thin: &mut [u16],
    out: &mut [u8],
) -> made::Answer
    requires { ((tokens_of src.now).number ≡ 0) × (first_token + length tape.now ≤ length kinds.now) × Narrow tape.now × Nested nesting 0 0 tape.now
        × Lent (length kinds.now) wide.old thin.old }
    ensures { OnTape src.now kinds.now (wide_of wide.old) (thin_of thin.old) out.old out.new result tape.now }
{
    let others = settled::bind(tape, wide, thin);
    let s = settled::settle(tape, kinds, wide, thin, others);
    match s.broken {
        Some(b) => Err(made::Refused {
            number: b.refusal.number(),
            place: place_of(src, b.at),
        }),
        None => {
            clear_written(thin);
            made::make(tape, kinds, wide, thin, s, out)
        }
    }
}

// The tokens: 4 and 5, then the rest.
fn translate_tokens(
    src: &[u8],
    kinds: &[u8],
    tape: &mut [u32],
    wide: &mut [u64],
    thin: &mut [u16],
    out: &mut [u8],
) -> made::Answer
    requires { ((tokens_of src.now).number ≡ 0) × (first_token ≤ length kinds.now) × (length tape.old ≡ length kinds.now) × Lent (length kinds.now) wide.old thin.old }
    ensures { OnTokens src.now kinds.now (wide_of wide.old) (thin_of thin.old) out.old out.new result }
{
    match parse::program(kinds, FIRST_TOKEN, tape) {
        Ok(p) => translate_tape(src, &tape[..p.value], kinds, wide, thin, out),
        Err(e) => Err(made::Refused {
            number: e.why.number(),
            place: place_of(src, e.at),
        }),
    }
}

// The lists cut to n tokens and the names in front of them.
fn translate_read(
    src: &[u8],
    n: usize,
    kinds: &[u8],
    tape: &mut [u32],
    wide: &mut [u64],
    thin: &mut [u16],
    out: &mut [u8],
) -> made::Answer
    requires { ((tokens_of src.now).number ≡ 0) × Fits (first_token + n) kinds.now tape.old wide.old thin.old }
    ensures { let m = first_token + n in OnTokens src.now (take m kinds.now) (wide_of (take (4 * m) wide.old))
        (thin_of (take (4 * m) thin.old)) out.old out.new result }
{
    let m = FIRST_TOKEN + n;
    let rows = 4 * m;
    translate_tokens(
        src,
        &kinds[..m],
        &mut tape[..m],
        &mut wide[..rows],
        &mut thin[..rows],
        out,
    )
}

// The text: 1 to 3, then the rest, in lists with room for any text of its length.
fn translate_in(
    src: &[u8],
    kinds: &mut [u8],
    tape: &mut [u32],
    wide: &mut [u64],
    thin: &mut [u16],
    out: &mut [u8],
) -> made::Answer
    requires { Rooms (length src.now) kinds.old tape.old wide.old thin.old }
    ensures { Gives (translation src.now (length out.old)) out.old out.new result }
{
    let tokens = settled::read(src, kinds, wide);
    match tokens {
        Ok(n) => translate_read(src, n, kinds, tape, wide, thin, out),
        Err(unread) => Err(made::Refused {
            number: unread.number(),
            place: unread.spot().place,
        }),
    }
}

// ── by length, so that a short text does not wait for long lists to be cleared ──

const SHORT: usize = 1024;

const MIDDLING: usize = 8192;

// A row for each byte, and more; four columns.
const SHORT_ROWS: usize = SHORT + MORE_ROWS;

const SHORT_COLUMNS: usize = 4 * SHORT_ROWS;

const MIDDLING_ROWS: usize = MIDDLING + MORE_ROWS;

const MIDDLING_COLUMNS: usize = 4 * MIDDLING_ROWS;

const LONG_ROWS: usize = TEXT_LIMIT + MORE_ROWS;

const LONG_COLUMNS: usize = 4 * LONG_ROWS;

// In lists of so many rows. Each number of them has a frame of its own, so a short text needs little stack.
#[inline(never)]
fn listed<const ROWS: usize, const COLUMNS: usize>(src: &[u8], out: &mut [u8]) -> made::Answer
    requires { (length src.now ≤ TEXT-LIMIT) × (rows_for (length src.now) ≤ ROWS) × (ROWS ≤ rows_for TEXT-LIMIT) × (COLUMNS ≡ 4 * ROWS) }
    ensures { Gives (translation src.now (length out.old)) out.old out.new result }
{
    let mut kinds = [0u8; ROWS];
    let mut tape = [0u32; ROWS];
    let mut wide = [0u64; COLUMNS];
    let mut thin = [0u16; COLUMNS];
    translate_in(src, &mut kinds, &mut tape, &mut wide, &mut thin, out)
}

// By length.
#[inline(never)]
fn sized(src: &[u8], out: &mut [u8]) -> made::Answer
    requires { length src.now ≤ TEXT-LIMIT }
    ensures { Gives (translation src.now (length out.old)) out.old out.new result }
{
    if src.len() <= SHORT {
        return listed::<SHORT_ROWS, SHORT_COLUMNS>(src, out);
    }
    if src.len() <= MIDDLING {
        return listed::<MIDDLING_ROWS, MIDDLING_COLUMNS>(src, out);
    }
    listed::<LONG_ROWS, LONG_COLUMNS>(src, out)
}

// ── the last step ──

// Document 02, 2/13: "Success and refusals 1 and 14 to 19 report line and column 0".
fn reports_none(number: usize) -> bool
    ensures { result ≡ reports_none number }
{
    (number <= 1) | ((14 <= number) & (number <= 19))
}

// "every other with a place below the text's length reports its own, and one at the end where the next byte would stand"
fn spot_for(src: &[u8], number: usize, place: usize) -> Spot
    ensures { result ≡ spot_for src.now number place }
{
    if reports_none(number) {
        return unplaced(place);
    }
    spot_at(src, place)
}

fn stand(src: &[u8], answer: made::Answer) -> Answer
    ensures { result ≡ stood src.now answer }
{
    answer.map_err(|r| Refused {
        number: r.number,
        spot: spot_for(src, r.number, r.place),
    })
}

// The object text of a source, laid at the front of a buffer: number, place, line, column and length, and the buffer, are the definition's.
pub fn translate(src: &[u8], out: &mut [u8]) -> Answer
    ensures { outcome result out.new ≡ defined src.now out.old }
{
    if src.len() <= TEXT_LIMIT {
        let answer = sized(src, out);
        return stand(src, answer);
    }
    stand(
        src,
        Err(made::Refused {
            number: 1,
            place: TEXT_LIMIT,
        }),
    )
}
