// Document 01, "Names, cells, protected registers": which label each GOTO means, refusals 6, 7 and 13 of labels, in two loops along the tape. "Labels are a
// separate set, found forward or backward in enclosing blocks, but never past the edge of a procedure body": so the first loop chains them. The chains stand in
// two columns of the ledger: labels in `opens`, and in `written` the blocks around each block.
ghost use Rattle.std.specs.Prelude.{◌≡◌, true, List, ℕ, ◌≤◌, ◌<◌, length, get_or, IfSome, unwrap_or};
ghost use Rattle.ledger.specs.Book.{wide_of, thin_of, on_thin, thin_limit};
ghost use Rattle.ledger.specs.Bounds.{noted, Narrow};
ghost use Rattle.scopes.specs.Search.{in_block, find};
ghost use Rattle.scopes.specs.Labels.{note_label, set_label};
ghost use Rattle.names.specs.Chains.{after as after_of, chain, blocks_in, labelled_in, mark_in, marking};
ghost use Rattle.names.specs.Linking.{block_after, outer_after, links_after};
ghost use Rattle.names.specs.Labelling.{label_at, linked, Chained, labelled_by, labelled_along};

use crate::{entered, sought};
use ledger::{opens, put_goes, put_opens, put_written, value, written};
use scopes::Noted;

// "257th label, in the program".
const MOST_LABELS: usize = 256;

// ── the search ──

// What comes after t in a chain, which falls and ends at 0.
fn after(next: usize, t: usize) -> usize
    requires { next < thin_limit }
    ensures { ((a : List ℕ) → next ≡ get_or a t 0 → result ≡ after_of a t) × (result < thin_limit) }
{
    if next < t { next } else { 0 }
}

// The first label from one on, along its chain, that has this key.
fn in_chain(wide: &[u64], thin: &[u16], wanted: u64, newest: usize) -> Option<usize>
    requires { newest < thin_limit }
    ensures is { (further : ℕ) → unwrap_or result further ≡ in_block (wide_of wide.now).values wanted (chain (thin_of thin.now).opens newest) further }
    ensures small { IfSome result (λ l. l < thin_limit) }
{
    let mut l = newest;
    while 0 < l {
        if value(wide, l) == wanted {
            return Some(l);
        }
        l = after(opens(thin, l), l);
    }
    None
}

// The search goes outward from a block, as far as the edge of the procedure body, and ends at the first match.
// Kept: 0 for none, as the definition `find` (scopes/specs/Search) and the ledger's column `goes` have it.
fn lookup(wide: &[u64], thin: &[u16], wanted: u64, block: usize) -> usize
    ensures { (result ≡ find (wide_of wide.now).values wanted (blocks_in (thin_of thin.now).opens (thin_of thin.now).written block)) × (result < thin_limit) }
{
    let mut b = block;
    while 0 < b {
        match in_chain(wide, thin, wanted, opens(thin, b)) {
            Some(l) => return l,
            None => b = after(written(thin, b), b),
        }
    }
    0
}

// ── the first loop: chains ──

fn block_after(op: u32, t: usize, thin: &[u16], block: usize) -> usize
    requires { (noted op ≡ true → t < thin_limit) × (block < thin_limit) }
    ensures { (result ≡ block_after op t (thin_of thin.now).written block) × (result < thin_limit) }
{
    if op == tape::BLOCK {
        return t;
    }
    if op == tape::PROCEDURE {
        return 0;
    }
    if (op == tape::END_BLOCK) | (op == tape::END_PROCEDURE) {
        return written(thin, t);
    }
    block
}

fn enclose(op: u32, t: usize, block: usize, thin: &mut [u16])
    requires { block < thin_limit }
    ensures { thin_of thin.new ≡ on_thin 3 (outer_after op t block) (thin_of thin.old) }
{
    if (op == tape::BLOCK) | (op == tape::PROCEDURE) {
        put_written(thin, t, block);
    }
}

fn link(op: u32, t: usize, block: usize, thin: &mut [u16])
    requires { noted op ≡ true → t < thin_limit }
    ensures { thin_of thin.new ≡ on_thin 2 (links_after op t block) (thin_of thin.old) }
{
    if op == tape::BLOCK {
        put_opens(thin, t, 0);
        return;
    }
    if op == tape::LABEL {
        let newest = opens(thin, block);
        put_opens(thin, t, newest);
        put_opens(thin, block, t);
    }
}

fn link_all(tape: &[u32], thin: &mut [u16])
    requires { Narrow tape.now }
    ensures { Chained tape.now (thin_of thin.old) (thin_of thin.new) }
{
    let mut block: usize = 0;
    for e in tape {
        let op = tape::op(*e);
        let t = tape::token(*e);
        let next = block_after(op, t, thin, block);
        link(op, t, block, thin);
        enclose(op, t, block, thin);
        block = next;
    }
}

// ── the second loop: rules, and what each GOTO means ──

fn set_label(wide: &[u64], thin: &[u16], t: usize, n: &mut Noted)
    requires { n.old.count < 4294967296 }
    ensures { (goes : List ℕ) → labelled_in goes n.new ≡ set_label (wide_of wide.now).values t
        (chain (thin_of thin.now).opens (after_of (thin_of thin.now).opens t)) (labelled_in goes n.old) }
{
    let earlier = after(opens(thin, t), t);
    let first = in_chain(wide, thin, value(wide, t), earlier);
    entered(first.unwrap_or(0), MOST_LABELS, t, n);
}

fn bind(wide: &[u64], thin: &mut [u16], block: usize, t: usize, n: &mut Noted)
    ensures { mark_in (thin_of thin.new) n.new ≡ marking
        (λ links outer. note_label t (find (wide_of wide.now).values (get_or (wide_of wide.now).values t 0) (blocks_in links outer block)))
        (mark_in (thin_of thin.old) n.old) }
{
    let l = lookup(wide, thin, value(wide, t), block);
    put_goes(thin, t, l);
    sought(l, t, n);
}

fn label_at(op: u32, t: usize, wide: &[u64], thin: &mut [u16], block: usize, n: &mut Noted)
    requires { n.old.count < 4294967296 }
    ensures { mark_in (thin_of thin.new) n.new ≡ marking (λ links outer. label_at (wide_of wide.now).values links outer op t block) (mark_in (thin_of thin.old) n.old) }
{
    if op == tape::LABEL {
        set_label(wide, thin, t, n);
        return;
    }
    if op == tape::GOTO {
        bind(wide, thin, block, t, n);
    }
}

fn label_all(tape: &[u32], wide: &[u64], thin: &mut [u16]) -> Noted
    requires { Narrow tape.now × (length tape.now ≤ 4294967296) }
    ensures { (labelled_in (thin_of thin.new).goes result ≡ labelled_by tape.now (wide_of wide.now).values
        (thin_of thin.old).opens (thin_of thin.old).written (thin_of thin.old).goes)
        × ((thin_of thin.new).found ≡ (thin_of thin.old).found) }
{
    let mut block: usize = 0;
    let mut n = Noted {
        count: 0,
        broken: None,
    };
    for e in tape {
        let op = tape::op(*e);
        let t = tape::token(*e);
        label_at(op, t, wide, thin, block, &mut n);
        block = block_after(op, t, thin, block);
    }
    n
}

pub fn labels(tape: &[u32], wide: &[u64], thin: &mut [u16]) -> Noted
    requires { Narrow tape.now × (length tape.now ≤ 4294967296) }
    ensures { (labelled_in (thin_of thin.new).goes result ≡ labelled_along tape.now (wide_of wide.now).values
        (thin_of thin.old).opens (thin_of thin.old).written (thin_of thin.old).goes)
        × ((thin_of thin.new).found ≡ (thin_of thin.old).found) }
{
    link_all(tape, thin);
    label_all(tape, wide, thin)
}
