// Document 01, "Object text" and "Numbers answered": the object of a text that breaks no rule, laid in the buffer, or refusal 14, 15 or 16. Nothing is written before
// these are decided.
#![tactic(auto)]

ghost use Rattle.std.specs.Prelude.{◌≡◌, List, ℕ, ◌+◌, ◌*◌, ◌≤◌, length};
ghost use Rattle.std.proofs.lemmas.List.Edits.{sets};
ghost use Rattle.ledger.specs.Book.{wide_of, thin_of, thin_limit};
ghost use Rattle.objtext.specs.Object.{object_text};
ghost use Rattle.translation.specs.Layout.{segment_limit};
ghost use Rattle.translation.specs.Image.{words};
ghost use Rattle.translation.specs.Translate.{accepted, in_room};
ghost use Rattle.frames.specs.Frames.{length_for};
ghost use Rattle.settled.specs.Texts.{Ended};
ghost use Rattle.made.specs.Answers.{Gives};
ghost use Rattle.made.specs.Making.{end_of_first, object_cut, object_along, made_along};

use emit::Book;
use layout::SEGMENT_LIMIT;
use settled::Judged;

// A refusal's number and place.
#[derive(Clone, Copy, PartialEq, Eq)]
pub struct Refused {
    pub number: usize,
    pub place: usize,
}

// The bytes written, or a refusal.
pub type Answer = Result<usize, Refused>;

// ── the segments ──

// The literals, one behind the other.
fn lay_literals(image: &mut [u8], start: usize, literals: &[u64])
    requires { start + 4 * length literals.now ≤ segment_limit }
    ensures { image.new ≡ sets image.old start (words literals.now) }
{
    for (i, v) in literals.iter().enumerate() {
        layout::lay(image, start + 4 * i, 4, *v);
    }
}

// "Segment 1 ends with its last literal; with none, with its last cell, or at 16."
fn end_of_first(cells: usize, start: usize, literals: usize) -> usize
    requires { (cells ≤ segment_limit) × (start + 4 * literals ≤ segment_limit) }
    ensures { (result ≡ end_of_first cells start literals) × (result ≤ segment_limit) }
{
    if literals == 0 {
        return cells;
    }
    start + 4 * literals
}

// The images of the segments, and the object of them; segment 1 ends at `last`.
fn write(
    tape: &[u32],
    wide: &[u64],
    code: &[u8],
    literals: &[u64],
    start: usize,
    last: usize,
    s: Judged,
    out: &mut [u8],
)
    requires { (length code.now ≤ segment_limit) × (start + 4 * length literals.now ≤ segment_limit) × (last ≤ segment_limit) × (s.two ≤ segment_limit)
        × (s.three ≤ segment_limit) × (length_for (length code.now) last s.bases s.two s.three ≤ length out.old) }
    ensures { out.new ≡ sets out.old 0
        (object_text (object_cut (wide_of wide.now) tape.now s.bases start code.now literals.now s.cells last
        s.two s.three)) }
{
    let mut first = [0u8; SEGMENT_LIMIT];
    let mut second = [0u8; SEGMENT_LIMIT];
    let mut third = [0u8; SEGMENT_LIMIT];
    layout::fill(tape, 1, wide, &mut first);
    lay_literals(&mut first, start, literals);
    layout::fill(tape, 2, wide, &mut second);
    layout::fill(tape, 3, wide, &mut third);
    let two = s.two;
    let three = s.three;
    frames::write_object(
        out,
        code,
        &first[..last],
        s.cells,
        s.bases,
        &second[..two],
        &third[..three],
    );
}

// ── the object ──

// "16: buffer shorter than the object text … length needed"
fn deliver(
    tape: &[u32],
    wide: &[u64],
    code: &[u8],
    literals: &[u64],
    start: usize,
    s: Judged,
    out: &mut [u8],
) -> Answer
    requires { (length code.now ≤ segment_limit) × (start + 4 * length literals.now ≤ segment_limit) × (s.cells ≤ segment_limit) × (s.two ≤ segment_limit) × (s.three ≤ segment_limit) }
    ensures { (ends : List ℕ) → Ended ends s
        → Gives (in_room (length out.old)
        (accepted (object_text (object_along (wide_of wide.now) tape.now s.bases ends start code.now
        literals.now)))) out.old out.new result }
{
    let last = end_of_first(s.cells, start, literals.len());
    let needed = frames::text_length(code.len(), last, s.bases, s.two, s.three);
    if out.len() < needed {
        return Err(Refused {
            number: 16,
            place: needed,
        });
    }
    write(tape, wide, code, literals, start, last, s, out);
    Ok(needed)
}

// "15: literals end past 4,096 … 0": from 16 on there is room for 1,020, so that a room that is full says that they do.
const LITERALS: usize = SEGMENT_LIMIT / 4 + 1;

pub fn make(
    tape: &[u32],
    kinds: &[u8],
    wide: &[u64],
    thin: &mut [u16],
    s: Judged,
    out: &mut [u8],
) -> Answer
    requires { (length tape.now ≤ thin_limit) × (s.cells ≤ segment_limit) × (s.two ≤ segment_limit) × (s.three ≤ segment_limit) }
    ensures { (ends : List ℕ) → Ended ends s
        → Gives (made_along kinds.now (wide_of wide.now) (thin_of thin.old) ends tape.now s.bases
        (length out.old)) out.old out.new result }
{
    let mut image = [0u8; SEGMENT_LIMIT];
    let mut literals = [0u64; LITERALS];
    let start = layout::round_up(4, s.cells as u64);
    code::places(tape, kinds, wide, thin);
    let book = Book { kinds, wide, thin };
    let e = code::write_code(tape, book, start, &mut image, &mut literals);
    let size = e.length;
    let count = e.literals;
    let from = start as usize;
    if SEGMENT_LIMIT < size {
        return Err(Refused {
            number: 14,
            place: 0,
        });
    }
    if SEGMENT_LIMIT < from + 4 * count {
        return Err(Refused {
            number: 15,
            place: 0,
        });
    }
    deliver(tape, wide, &image[..size], &literals[..count], from, s, out)
}
