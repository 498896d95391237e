// Document 01, "Names, cells, protected registers": which declaration each name means, refusals 6, 7 and 13 of names, in one loop along the tape. Two columns of
// the ledger are worked in: `opens` has the tokens that declare names, oldest first, and `written` for each open block where it begins there. Labels have a module of their own.
#![tactic(auto)]

pub mod labels;

ghost use Rattle.std.specs.Prelude.{◌≡◌, true, List, [], ◌∷◌, ℕ, ◌+◌, ◌-◌, ◌*◌, ◌/◌, ◌≤◌, ◌<◌, length, IfSome, unwrap_or};
ghost use Rattle.tape.specs.Pass.{pass};
ghost use Rattle.ledger.specs.Book.{wide_of, thin_of, thin_limit};
ghost use Rattle.ledger.specs.Bounds.{noted, Narrow};
ghost use Rattle.scopes.specs.Search.{first_token, in_block, find, innermost, enter};
ghost use Rattle.scopes.specs.Names.{use_name, declare_name};
ghost use Rattle.names.specs.Judged.{entered as entered_by, sought as sought_by};
ghost use Rattle.names.specs.Naming.{outer, blocks_after, declare_at, use_register, use_place, use_at, name_op, beginning};
ghost use Rattle.names.specs.Flat.{span, blocks_of, blocks_in, named_in, Rising, Roomy, Changed, Stays, search_in, naming, Begun};

use ledger::{opens, put_found, put_opens, put_written, value, written};
use scopes::{Noted, Refusal, join, join_to, rule};

// "257th declared name … in the program".
const MOST_NAMES: usize = 256;

// How many blocks are open, and how many names are declared in them.
#[derive(Clone, Copy)]
pub struct Blocks {
    pub depth: usize,
    pub count: usize,
}

// ── the search ──

// The newest of the entries from lo up to hi whose name has this key.
fn in_block(wide: &[u64], thin: &[u16], wanted: u64, lo: usize, hi: usize) -> Option<usize>
    ensures is { (further : ℕ) → unwrap_or result further ≡ in_block (wide_of wide.now).values wanted (span (thin_of thin.now).opens lo hi) further }
    ensures small { IfSome result (λ d. d < thin_limit) }
{
    for j in (lo..hi).rev() {
        let d = opens(thin, j);
        if value(wide, d) == wanted {
            return Some(d);
        }
    }
    None
}

// "the search goes outward from the innermost block and ends at the first match"
// Kept: 0 for none, as the definition `find` (scopes/specs/Search) and the ledger's column `found` have it; so in `entered` and `sought`.
// Not inlined: among all that a pass holds, the inner loop would go by memory instead of registers.
#[inline(never)]
fn lookup(wide: &[u64], thin: &[u16], wanted: u64, depth: usize, count: usize) -> usize
    ensures { (result ≡ find (wide_of wide.now).values wanted (blocks_of (thin_of thin.now).opens (thin_of thin.now).written depth count)) × (result < thin_limit) }
{
    let mut end = count;
    let mut found: usize = 0;
    'search: for b in (0..depth).rev() {
        let start = written(thin, b);
        for j in (start..end).rev() {
            let d = opens(thin, j);
            if value(wide, d) == wanted {
                found = d;
                break 'search;
            }
        }
        end = start;
    }
    found
}

// ── the open blocks ──

fn open_block(thin: &mut [u16], b: Blocks) -> Blocks
    requires { Rising (thin_of thin.old).written b.depth b.count × ((b.depth < length (thin_of thin.old).written) × ((b.depth < thin_limit) × (b.count < thin_limit))) }
    ensures { Changed ([] ∷ blocks_in (thin_of thin.old) b) (thin_of thin.new) b result
        × Stays (thin_of thin.old) (thin_of thin.new) × ((result.depth ≡ b.depth + 1) × (result.count ≡ b.count)) }
{
    put_written(thin, b.depth, b.count);
    Blocks {
        depth: b.depth + 1,
        ..b
    }
}

fn close_block(thin: &[u16], b: Blocks) -> Blocks
    requires { Rising (thin_of thin.now).written b.depth b.count }
    ensures { Changed (outer (blocks_in (thin_of thin.now) b)) (thin_of thin.now) b result }
{
    if b.depth == 0 {
        return b;
    }
    let depth = b.depth - 1;
    let count = written(thin, depth);
    Blocks { depth, count }
}

fn enter_name(thin: &mut [u16], t: usize, b: Blocks) -> Blocks
    requires { Rising (thin_of thin.old).written b.depth b.count × ((b.count < length (thin_of thin.old).opens) × ((b.count < thin_limit) × (t < thin_limit))) }
    ensures { Changed (enter t (blocks_in (thin_of thin.old) b)) (thin_of thin.new) b result
        × Stays (thin_of thin.old) (thin_of thin.new) × ((result.depth ≡ b.depth) × (result.count ≡ b.count + 1)) }
{
    put_opens(thin, b.count, t);
    Blocks {
        count: b.count + 1,
        ..b
    }
}

fn blocks_after(op: u32, t: usize, thin: &mut [u16], b: Blocks) -> Blocks
    requires { Roomy (thin_of thin.old) b × (noted op ≡ true → t < thin_limit) }
    ensures { Changed (blocks_after op t (blocks_in (thin_of thin.old) b)) (thin_of thin.new) b result × Stays (thin_of thin.old) (thin_of thin.new) }
{
    if op == tape::BLOCK {
        return open_block(thin, b);
    }
    if op == tape::END_BLOCK {
        return close_block(thin, b);
    }
    if tape::declares(op) {
        return enter_name(thin, t, b);
    }
    b
}

// ── the rules of names and of labels ──

// One more, with what stands earlier in its block under the same key, or 0.
fn entered(earlier: usize, most: usize, t: usize, n: &mut Noted)
    requires { n.old.count < 4294967296 }
    ensures { n.new ≡ entered_by earlier most t n.old }
{
    let once = rule(earlier == 0, Refusal::Twice, t);
    let few = rule(n.count < most, Refusal::TooMany, t);
    n.count += 1;
    join_to(&mut n.broken, join(once, few));
}

// What was looked for, with what was found, or 0.
fn sought(d: usize, t: usize, n: &mut Noted)
    ensures { n.new ≡ sought_by d t n.old }
{
    join_to(&mut n.broken, rule(0 < d, Refusal::NotFound, t));
}

// ── declarations and uses ──

// Where the innermost block begins.
fn innermost_start(thin: &[u16], b: Blocks) -> usize
    ensures { innermost (blocks_in (thin_of thin.now) b) ≡ span (thin_of thin.now).opens result b.count }
{
    if b.depth == 0 {
        return b.count;
    }
    written(thin, b.depth - 1)
}

fn declare_name(wide: &[u64], thin: &[u16], b: Blocks, t: usize, n: &mut Noted)
    requires { n.old.count < 4294967296 }
    ensures { (found : List ℕ) → named_in found n.new ≡ declare_name (wide_of wide.now).values t (blocks_in (thin_of thin.now) b) (named_in found n.old) }
{
    let start = innermost_start(thin, b);
    let earlier = in_block(wide, thin, value(wide, t), start, b.count);
    entered(earlier.unwrap_or(0), MOST_NAMES, t, n);
}

fn use_name(wide: &[u64], thin: &mut [u16], b: Blocks, t: usize, n: &mut Noted)
    ensures { search_in (thin_of thin.new) n.new ≡ naming b (use_name (wide_of wide.now).values t) (search_in (thin_of thin.old) n.old) }
{
    let d = lookup(wide, thin, value(wide, t), b.depth, b.count);
    put_found(thin, t, d);
    sought(d, t, n);
}

// ── an event ──

fn declare_at(op: u32, t: usize, wide: &[u64], thin: &[u16], b: Blocks, n: &mut Noted)
    requires { n.old.count < 4294967296 }
    ensures { (found : List ℕ) → named_in found n.new ≡ declare_at (wide_of wide.now).values op t (blocks_in (thin_of thin.now) b) (named_in found n.old) }
{
    if tape::declares(op) {
        declare_name(wide, thin, b, t, n);
    }
}

fn use_register(op: u32, t: usize, wide: &[u64], thin: &mut [u16], b: Blocks, n: &mut Noted)
    requires { t < 4294967296 }
    ensures { search_in (thin_of thin.new) n.new ≡ naming b (use_register (wide_of wide.now).values op t) (search_in (thin_of thin.old) n.old) }
{
    if op == tape::PROCEDURE {
        use_name(wide, thin, b, t + 2, n);
        return;
    }
    if tape::family(op) == tape::COMPARED {
        use_name(wide, thin, b, t.saturating_sub(2), n);
    }
}

fn use_place(shape: u32, t: usize, wide: &[u64], thin: &mut [u16], b: Blocks, n: &mut Noted)
    requires { t < 4294967296 }
    ensures { search_in (thin_of thin.new) n.new ≡ naming b (use_place (wide_of wide.now).values shape t) (search_in (thin_of thin.old) n.old) }
{
    if tape::SUBSCRIPTED_INDEXED < shape {
        return;
    }
    use_name(wide, thin, b, t, n);
    if shape < tape::INDEXED {
        return;
    }
    if shape == tape::INDEXED {
        use_name(wide, thin, b, t + 2, n);
        return;
    }
    use_name(wide, thin, b, t + 5, n);
}

fn use_at(op: u32, t: usize, wide: &[u64], thin: &mut [u16], b: Blocks, n: &mut Noted)
    requires { t < 4294967296 }
    ensures { search_in (thin_of thin.new) n.new ≡ naming b (use_at (wide_of wide.now).values op t) (search_in (thin_of thin.old) n.old) }
{
    use_register(op, t, wide, thin, b, n);
    use_place(tape::shape(op), t, wide, thin, b, n);
}

// ── the tape ──

// How many names are declared in the block around the program.
const STANDARD_NAMES: usize = 25;

// "R0 to R9 and RA to RF are declared in a block around the program.", and so are the standard functions.
fn open_around(thin: &mut [u16]) -> Blocks
    requires { first_token ≤ length thin.old / 4 }
    ensures { Begun (thin_of thin.new) result × Stays (thin_of thin.old) (thin_of thin.new) }
{
    let mut b = open_block(thin, Blocks { depth: 0, count: 0 });
    for t in (1..=STANDARD_NAMES).rev() {
        b = enter_name(thin, t, b);
    }
    b
}

pub fn names(tape: &[u32], wide: &[u64], thin: &mut [u16]) -> Noted
    requires { Narrow tape.now × ((first_token + length tape.now ≤ length thin.old / 4) × (length thin.old ≤ 4 * thin_limit)) }
    ensures { (named_in (thin_of thin.new).found result ≡ (pass (name_op (wide_of wide.now).values)
        (beginning (thin_of thin.old).found) tape.now).named) × ((thin_of thin.new).goes ≡ (thin_of thin.old).goes) }
{
    let mut b = open_around(thin);
    let mut n = Noted {
        count: 0,
        broken: None,
    };
    for e in tape {
        let op = tape::op(*e);
        let t = tape::token(*e);
        declare_at(op, t, wide, thin, b, &mut n);
        b = blocks_after(op, t, thin, b);
        use_at(op, t, wide, thin, b, &mut n);
    }
    n
}
