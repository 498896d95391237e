// Document 01, "Names, cells, protected registers": where cells stand, refusal 12 of a cell, and the initial values in a segment's image, each in one loop
// along the tape.
#![tactic(auto)]

ghost use Rattle.std.specs.Prelude.{◌≡◌, ◌+◌, ◌/◌, ◌≤◌, ◌<◌, length};
ghost use Rattle.base.specs.Numbers.{stored};
ghost use Rattle.scopes.specs.Broken.{unbroken};
ghost use Rattle.tape.specs.Pass.{pass};
ghost use Rattle.ledger.specs.Book.{wide_of, thin_limit};
ghost use Rattle.translation.specs.Layout.{round_up};
ghost use Rattle.layout.specs.Along.{segment_at, capped, book_in, place_in, event_in, layout_in, imaging_of, nowhere, start_in, lay_value, image_in};

use base::put_byte;
use ledger::{clear_written, mean, offset, put_offset, put_written, under, value, written};
use scopes::{Broken, Refusal, join_to, rule};
use tables::{element_size, number};

// "A segment is at most 4,096 bytes, every cell included."
pub const SEGMENT_LIMIT: usize = 4096;

// What is kept of an end that is past it.
const PAST_LIMIT: usize = SEGMENT_LIMIT + 1;

// "Segment 1 begins with a table of four 4-byte entries".
const TABLE_BYTES: usize = 16;

// The segment of the cell that is declared at a token.
fn segment(wide: &[u64], t: usize) -> usize
    ensures { (result ≡ segment_at (wide_of wide.now).under t) × (result < 4294967296) }
{
    (under(wide, t) % 4294967296) as usize
}

// "the next multiple of" z.
pub fn round_up(z: u64, n: u64) -> u64
    requires { (1 ≤ z) × (z ≤ 4) × (n < 4611686018427387904) }
    ensures { (result ≡ round_up z n) × (result ≤ n + 3) }
{
    (n + (z - 1)) / z * z
}

// What is kept of an end in 16 bits.
fn cap(end: u64) -> usize
    ensures { (result ≡ capped end) × (result < thin_limit) }
{
    if end <= SEGMENT_LIMIT as u64 {
        return end as usize;
    }
    PAST_LIMIT
}

fn place_cell(wide: &mut [u64], thin: &mut [u16], t: usize, broken: &mut Option<Broken>)
    ensures { book_in wide.new thin.new broken.new ≡ place_in t (book_in wide.old thin.old broken.old) }
{
    let m = mean(wide, t);
    let size = element_size(m);
    let k = segment(wide, t);
    let start = round_up(size, written(thin, k) as u64);
    let end = start + size * number(m);
    put_offset(wide, t, start);
    put_written(thin, k, cap(end));
    join_to(
        broken,
        rule(end <= SEGMENT_LIMIT as u64, Refusal::NoRoom, t),
    );
}

fn layout_event(op: u32, t: usize, wide: &mut [u64], thin: &mut [u16], broken: &mut Option<Broken>)
    ensures { book_in wide.new thin.new broken.new ≡ event_in op t (book_in wide.old thin.old broken.old) }
{
    if op == tape::ITEM {
        place_cell(wide, thin, t, broken);
    }
}

// Where cells stand, by token, and where they end, by segment, in the column `written`, whatever stood there.
pub fn layout(tape: &[u32], wide: &mut [u64], thin: &mut [u16]) -> Option<Broken>
    ensures { book_in wide.new thin.new result ≡ layout_in (length thin.old / 4) tape.now (book_in wide.old thin.old unbroken) }
{
    clear_written(thin);
    put_written(thin, 1, TABLE_BYTES);
    let mut broken = None;
    for e in tape {
        layout_event(tape::op(*e), tape::token(*e), wide, thin, &mut broken);
    }
    broken
}

// Where the next initial value goes, and how many bytes it takes.
#[derive(Clone, Copy)]
pub struct Filling {
    pub at: usize,
    pub size: usize,
}

fn start_cell(k: usize, wide: &[u64], t: usize) -> Filling
    ensures { (result ≡ start_in k (wide_of wide.now) t) × (result.size ≤ 4) }
{
    if segment(wide, t) == k {
        return Filling {
            at: offset(wide, t) as usize,
            size: element_size(mean(wide, t)) as usize,
        };
    }
    Filling { at: 0, size: 0 }
}

// Lays the n low bytes of v from `at`, as far as there is room.
pub fn lay(s: &mut [u8], at: usize, n: usize, v: u64)
    requires { (at < 4294967296) × (n ≤ 4) }
    ensures { s.new ≡ stored s.old at n v }
{
    let mut rest = v;
    for i in (0..n).rev() {
        put_byte(s, at + i, (rest % 256) as u8);
        rest /= 256;
    }
}

fn lay_value(image: &mut [u8], v: u64, f: Filling) -> Filling
    requires { f.size ≤ 4 }
    ensures { (imaging_of image.new result ≡ lay_value v (imaging_of image.old f)) × (result.size ≤ 4) }
{
    if f.at < SEGMENT_LIMIT {
        lay(image, f.at, f.size, v);
        return Filling {
            at: f.at + f.size,
            ..f
        };
    }
    f
}

fn image_event(op: u32, t: usize, k: usize, wide: &[u64], image: &mut [u8], f: Filling) -> Filling
    requires { f.size ≤ 4 }
    ensures { (imaging_of image.new result ≡ image_in k (wide_of wide.now) op t (imaging_of image.old f)) × (result.size ≤ 4) }
{
    if op == tape::ITEM {
        return start_cell(k, wide, t);
    }
    if op == tape::VALUE {
        return lay_value(image, value(wide, t), f);
    }
    f
}

// The initial values of the cells of segment k, laid over its image.
pub fn fill(tape: &[u32], k: usize, wide: &[u64], image: &mut [u8]) -> Filling
    ensures { imaging_of image.new result ≡ pass (image_in k (wide_of wide.now)) (imaging_of image.old nowhere) tape.now }
{
    let mut f = Filling { at: 0, size: 0 };
    for e in tape {
        f = image_event(tape::op(*e), tape::token(*e), k, wide, image, f);
    }
    f
}
