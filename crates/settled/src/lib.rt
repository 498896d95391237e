// Document 01, "Numbers answered": what is known of a text before code is made of it. Its tokens behind the standard names; which declaration each name and which
// label each GOTO means; what names mean, which rules are broken, where cells stand. And where a token stands in the text.
#![tactic(auto)]

ghost use Rattle.std.specs.Prelude.{◌≡◌, List, ◌+◌, ◌*◌, ◌/◌, ◌≤◌, ◌<◌, length, get_or};
ghost use Rattle.std.proofs.lemmas.List.Edits.{sets};
ghost use Rattle.token.specs.declared.Token.{Token};
ghost use Rattle.token.specs.Text.{tokens_of, TEXT-LIMIT};
ghost use Rattle.grammar.specs.Tree.{Statement};
ghost use Rattle.grammar.specs.Grammar.{nesting};
ghost use Rattle.scopes.specs.Search.{in_front, first_token};
ghost use Rattle.ledger.specs.Book.{wide_of, thin_of, on_wide, thin_limit};
ghost use Rattle.ledger.specs.Bounds.{Narrow, Nested};
ghost use Rattle.translation.specs.Layout.{segment_limit};
ghost use Rattle.translation.specs.Translate.{kinds_of, values_of, named};
ghost use Rattle.settled.specs.Texts.{all_tokens, places_of, rows_for, Behind, Fronted, ButValues, Text, Blank, Bound, Cleared, end_of, Settled, Ended, Stays};

use layout::SEGMENT_LIMIT;
use ledger::{clear_offsets, clear_opens, clear_written, put_value, written};
use scopes::{Broken, join};
use spots::spot_at;
pub use token::TEXT_LIMIT;
use token::{Refusal, Unread};
use token_lists::{is_last, spot_in};

// ── the tokens ──

// The standard names stand in front of the text's own tokens: those of the registers, then those of the functions.
pub const FIRST_TOKEN: usize = 26;

// The rows that a text needs beside one for each byte: the names in front, and the end.
pub const MORE_ROWS: usize = FIRST_TOKEN + 1;

const FRONT_KINDS: [u8; FIRST_TOKEN] = [
    0, 1, 1, 1, 1, 1, 1, 1, 1, 1, 1, 1, 1, 1, 1, 1, 1, 1, 1, 1, 1, 1, 1, 1, 1, 1,
];

const FRONT_KEYS: [u64; FIRST_TOKEN] = [
    0, 972, 973, 974, 975, 976, 977, 978, 979, 980, 981, 982, 983, 984, 985, 986, 987, 660, 37344,
    766, 29646, 16326, 36821, 46039637, 1372205, 28287,
];

fn put_front(kinds: &mut [u8], wide: &mut [u64])
    requires { first_token ≤ length kinds.old }
    ensures { (kinds.new ≡ sets kinds.old 0 (kinds_of in_front))
        × (wide_of wide.new ≡ on_wide 0 (λ values. sets values 0 (values_of in_front)) (wide_of wide.old)) }
{
    for t in 0..FIRST_TOKEN {
        kinds[t] = FRONT_KINDS[t];
        put_value(wide, t, FRONT_KEYS[t]);
    }
}

// The text's own tokens, one after the other as far as a refusal.
fn lay_tokens(src: &[u8], kinds: &mut [u8], wide: &mut [u64]) -> Result<usize, Unread>
    requires { (length src.now ≤ TEXT-LIMIT) × (rows_for (length src.now) ≤ length kinds.old) }
    ensures { Behind src.now kinds.old kinds.new (wide_of wide.old) (wide_of wide.new) result }
{
    let mut at: usize = 0;
    let mut n: usize = 0;
    loop {
        let next = scanner::next_token(&src[at..]);
        match next {
            Ok((t, end)) => {
                kinds[FIRST_TOKEN + n] = t.kind;
                put_value(wide, FIRST_TOKEN + n, t.value);
                n += 1;
                if is_last(t.kind) {
                    return Ok(n);
                }
                at += end;
            }
            Err(refusal) => {
                let spot = spot_at(src, at + refusal.spot.place);
                return Err(Unread::Refused(Refusal { spot, ..refusal }));
            }
        }
    }
}

pub fn read(src: &[u8], kinds: &mut [u8], wide: &mut [u64]) -> Result<usize, Unread>
    requires { (length src.now ≤ TEXT-LIMIT) × (rows_for (length src.now) ≤ length kinds.old) × (4 * rows_for (length src.now) ≤ length wide.old) }
    ensures { Fronted src.now kinds.new (wide_of wide.new).values result × ButValues (wide_of wide.old) (wide_of wide.new) }
{
    put_front(kinds, wide);
    lay_tokens(src, kinds, wide)
}

// ── a token's place ──

// The names in front have no place.
pub fn place_of(src: &[u8], t: usize) -> usize
    requires { (tokens_of src.now).number ≡ 0 }
    ensures { result ≡ get_or (places_of (all_tokens src.now)) t 0 }
{
    if t < FIRST_TOKEN {
        return 0;
    }
    let spot = spot_in(src, t - FIRST_TOKEN);
    spot.place
}

// ── the rules ──

// Which declaration each name and which label each GOTO means; the broken rules. Two columns are worked in, and left as zeros.
pub fn bind(tape: &[u32], wide: &[u64], thin: &mut [u16]) -> Option<Broken>
    requires { Narrow tape.now × (4 * (first_token + length tape.now) ≤ length thin.old) × (length thin.old ≤ 4 * thin_limit) × (length wide.now ≤ length thin.old) }
    ensures { Cleared thin.old (thin_of thin.new)
        × ((ts : List Token) (x : Statement) → Text ts x (wide_of wide.now).values tape.now → Blank ts (thin_of thin.old).found
        → Blank ts (thin_of thin.old).goes → Bound ts x (thin_of thin.new) result) }
{
    let n = names::names(tape, wide, thin);
    let l = names::labels::labels(tape, wide, thin);
    clear_opens(thin);
    clear_written(thin);
    join(n.broken, l.broken)
}

// The broken rule that is answered, how many base declarations there are, and where the cells of segments 1 to 3 end.
#[derive(Clone, Copy)]
pub struct Judged {
    pub broken: Option<Broken>,
    pub bases: usize,
    pub cells: usize,
    pub two: usize,
    pub three: usize,
}

// Layout leaves the ends of segments in the column of what procedures write.
pub fn end_of(thin: &[u16], k: usize) -> usize
    ensures { (result ≡ end_of (thin_of thin.now).written k) × (result ≤ segment_limit) }
{
    let end = written(thin, k);
    if end < SEGMENT_LIMIT {
        return end;
    }
    SEGMENT_LIMIT
}

// "BEGIN, IF, WHILE, FOR or PROCEDURE inside 64 such constructs": so many blocks, or procedures, are open at most.
const NESTING: usize = 64;

// What is settled along the tape.
pub fn settle(
    tape: &[u32],
    kinds: &[u8],
    wide: &mut [u64],
    thin: &mut [u16],
    others: Option<Broken>,
) -> Judged
    requires { Nested nesting 0 0 tape.now × (length tape.now + 2 < thin_limit) × (4 * (length tape.now + 2) ≤ length wide.old) × (4 * (length tape.now + 2) ≤ length thin.old) }
    ensures { Ended (thin_of thin.new).written result × Stays (wide_of wide.old) (wide_of wide.new) (thin_of thin.old)
        (thin_of thin.new) × ((ts : List Token) (x : Statement) → Text ts x (wide_of wide.old).values tape.now
        → kinds.now ≡ kinds_of ts → (thin_of thin.old).found ≡ (named ts x).found → Blank ts (wide_of wide.old).means
        → Blank ts (thin_of thin.old).opens → Blank ts (thin_of thin.old).written → length wide.old / 4 ≡ length ts
        → Settled ts x (wide_of wide.new) (thin_of thin.new) others result) }
{
    let mut owners = [0u64; NESTING + 1];
    let mut outer = [0u64; NESTING + 1];
    let mut counts = [0u64; NESTING];
    let bases = meanings::meanings(tape, kinds, wide, thin, &mut owners, &mut outer);
    let ruled = judge::judge(tape, kinds, wide, thin, &mut counts, others);
    clear_offsets(wide);
    let placed = layout::layout(tape, wide, thin);
    Judged {
        broken: join(ruled, placed),
        bases,
        cells: end_of(thin, 1),
        two: end_of(thin, 2),
        three: end_of(thin, 3),
    }
}
