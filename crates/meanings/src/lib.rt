// Document 01, "Names, cells, protected registers": what names mean and which registers each procedure's text writes, in one loop along the tape.
#![tactic(auto)]

ghost use Rattle.std.specs.Prelude.{◌≡◌, List, ℕ, suc, ◌+◌, ◌-◌, ◌≤◌, ◌<◌, length, get_or};
ghost use Rattle.tape.specs.Pass.{pass};
ghost use Rattle.static_rules.specs.Registers.{add_register};
ghost use Rattle.static_rules.specs.Meaning.{meaning_of, register_of, routine};
ghost use Rattle.static_rules.specs.Meanings.{call_writes, open_base, mean as mean_at, write as write_one, write_text};
ghost use Rattle.tables.specs.Packed.{meanings_of, based_in, set_of};
ghost use Rattle.ledger.specs.Book.{Wide, wide_of, thin_of, thin_limit};
ghost use Rattle.ledger.specs.Bounds.{blocks_open, procedures_open};
ghost use Rattle.scopes.specs.Search.{standard_names};
ghost use Rattle.meanings.specs.Along.{enter_block, leave_block, enter_procedure, leave_procedure, change_base, write_target, write_lower, within_after, form_after, target_after, first_after, declared_after, is_product_at, write_product, written_after, mean_event, beginning};
ghost use Rattle.meanings.specs.Flat.{within_of, Moved, target_in, view_of, changed, standard_meaning, named_to, Roomy};

use arrays::{kind, put_wide};
use base::less;
use ledger::{found, mean, meaning, put_mean, put_opens, put_under, put_written, value, written};
use tables::{
    Sort, Width, is_long, is_register, is_routine, number, packed_as, register, top, width_by,
};
use tape::family;

// The innermost open procedure and how many are around it; the base in force, its register times 2^32 and its segment, and how many blocks are open.
#[derive(Clone, Copy)]
pub struct Scope {
    pub own: usize,
    pub owners: usize,
    pub base: u64,
    pub outer: usize,
}

// ── where the walk is ──

fn enter_block(outer: &mut [u64], s: Scope) -> Scope
    requires { s.outer < length outer.old }
    ensures { (owners : List ℕ) → Moved (enter_block (within_of owners outer.old s)) owners outer.new (suc s.outer) s.owners result }
{
    let depth = s.outer;
    let base = s.base;
    put_wide(outer, depth, base);
    Scope {
        outer: depth + 1,
        ..s
    }
}

fn leave_block(outer: &[u64], s: Scope) -> Scope
    ensures { (owners : List ℕ) → Moved (leave_block (within_of owners outer.now s)) owners outer.now (s.outer - 1) s.owners result }
{
    let depth = s.outer;
    Scope {
        base: top(outer, depth),
        outer: less(depth, 1),
        ..s
    }
}

fn enter_procedure(owners: &mut [u64], t: usize, s: Scope) -> Scope
    requires { s.owners < length owners.old }
    ensures { (outer : List ℕ) → Moved (enter_procedure t (within_of owners.old outer s)) owners.new outer s.outer (suc s.owners) result }
{
    let depth = s.owners;
    let own = s.own;
    put_wide(owners, depth, own as u64);
    Scope {
        own: t,
        owners: depth + 1,
        ..s
    }
}

fn leave_procedure(owners: &[u64], s: Scope) -> Scope
    ensures { (outer : List ℕ) → Moved (leave_procedure (within_of owners.now outer s)) owners.now outer s.outer (s.owners - 1) result }
{
    let depth = s.owners;
    Scope {
        own: top(owners, depth) as usize,
        owners: less(depth, 1),
        ..s
    }
}

fn change_base(wide: &[u64], thin: &[u16], bases: usize, t: usize, s: Scope) -> Scope
    requires { bases < 65534 }
    ensures { (under owners outer : List ℕ)
        → Moved (change_base (register_of (meaning_of (thin_of thin.now).found (meanings_of (wide_of wide.now).means under) t)) bases
        (within_of owners outer s)) owners outer s.outer s.owners result }
{
    let r = register(meaning(wide, thin, t));
    Scope {
        base: r * 4294967296 + (bases as u64 + 2),
        ..s
    }
}

fn within_after(
    op: u32,
    t: usize,
    wide: &[u64],
    thin: &[u16],
    bases: usize,
    owners: &mut [u64],
    outer: &mut [u64],
    s: Scope,
) -> Scope
    requires { (s.owners < length owners.old) × ((s.outer < length outer.old) × (bases < 65534)) }
    ensures { (under : List ℕ) → Moved
        (within_after (thin_of thin.now).found op t (meanings_of (wide_of wide.now).means under) bases
        (within_of owners.old outer.old s)) owners.new outer.new (blocks_open op s.outer)
        (procedures_open op s.owners) result }
{
    if op == tape::BLOCK {
        return enter_block(outer, s);
    }
    if op == tape::END_BLOCK {
        return leave_block(outer, s);
    }
    if op == tape::BASE {
        return change_base(wide, thin, bases, t, s);
    }
    if op == tape::PROCEDURE {
        return enter_procedure(owners, t, s);
    }
    if op == tape::END_PROCEDURE {
        return leave_procedure(owners, s);
    }
    s
}

// ── what a declaration's and an assignment's later events need ──

fn form_after(op: u32, t: usize, wide: &[u64], form: u64) -> u64
    ensures { result ≡ form_after (wide_of wide.now).values op t form }
{
    let k = family(op);
    let width = width_by(tape::form(op) as u64);
    if k == tape::SINGLE_FULL {
        return packed_as(Sort::Cell, width, 1);
    }
    if k == tape::ARRAY_FULL {
        return packed_as(Sort::Array, width, value(wide, t));
    }
    form
}

// The register that a packed meaning is.
fn target_of(m: u64) -> Option<u64>
    ensures { result ≡ target_in m }
{
    if is_register(m) {
        return Some(number(m));
    }
    None
}

// The register of a CASE is a target, as "The case register counts as written", and an argument where it is written; a number is none.
fn target_after(
    op: u32,
    t: usize,
    wide: &[u64],
    thin: &[u16],
    first: bool,
    target: Option<u64>,
) -> Option<u64>
    ensures { (under : List ℕ) → result ≡ target_after (thin_of thin.now).found op t (meanings_of (wide_of wide.now).means under) first target }
{
    let k = family(op);
    let argued = k == tape::ARGUED;
    let named = tape::form(op) != tape::NUMBER;
    if (k == tape::TARGET)
        | (k == tape::CONTROL)
        | (op == tape::CHOSEN)
        | (argued & first & named)
    {
        return target_of(meaning(wide, thin, t));
    }
    if argued {
        return None;
    }
    target
}

// The argument that follows is written: "IC, LA and LTR write the first".
fn first_after(op: u32, t: usize, wide: &[u64], thin: &[u16]) -> bool
    ensures { (under : List ℕ) → result ≡ first_after (thin_of thin.now).found op t (meanings_of (wide_of wide.now).means under) }
{
    if op == tape::APPLIED {
        return functions::meant(meaning(wide, thin, t)).writes_first();
    }
    false
}

// ── sets of registers ──

// A set with one register more; only 0 to 15 are in sets.
fn with_register(m: usize, r: u64) -> usize
    requires { m < thin_limit }
    ensures { (set_of result ≡ add_register r (set_of m)) × (result < thin_limit) }
{
    if r < 16 {
        return m | (1usize << r);
    }
    m
}

// The text of procedure own writes register r.
fn write(thin: &mut [u16], own: usize, r: u64)
    ensures { (w : Wide) (n : ℕ) → view_of w (thin_of thin.new) n ≡ changed (write_one own r) (view_of w (thin_of thin.old) n) }
{
    put_written(thin, own, with_register(written(thin, own), r));
}

// The text of procedure own writes all that the text of p writes.
fn write_text(thin: &mut [u16], own: usize, p: usize)
    ensures { (w : Wide) (n : ℕ) → view_of w (thin_of thin.new) n ≡ changed (write_text own p) (view_of w (thin_of thin.old) n) }
{
    put_written(thin, own, written(thin, p) | written(thin, own));
}

// ── declarations ──

// A base declaration opens a segment.
fn open_base(wide: &[u64], thin: &mut [u16], own: usize, t: usize, bases: usize) -> usize
    requires { bases < 65534 }
    ensures { (view_of (wide_of wide.now) (thin_of thin.new) result ≡ changed
        (open_base own (register_of (meaning_of (thin_of thin.old).found
        (meanings_of (wide_of wide.now).means (wide_of wide.now).under) t)) t)
        (view_of (wide_of wide.now) (thin_of thin.old) bases)) × (result ≡ bases + 1) }
{
    put_opens(thin, t, bases + 2);
    write(thin, own, register(meaning(wide, thin, t)));
    bases + 1
}

fn declare_routine(wide: &mut [u64], thin: &[u16], t: usize)
    requires { t < 4294967296 }
    ensures { (n : ℕ) → view_of (wide_of wide.new) (thin_of thin.now) n ≡ changed
        (mean_at t (routine (register_of (meaning_of (thin_of thin.now).found
        (meanings_of (wide_of wide.old).means (wide_of wide.old).under) (t + 2)))))
        (view_of (wide_of wide.old) (thin_of thin.now) n) }
{
    let r = register(meaning(wide, thin, t + 2));
    put_mean(wide, t, packed_as(Sort::Routine, Width::Full, r));
}

fn declared_after(
    op: u32,
    t: usize,
    wide: &mut [u64],
    thin: &mut [u16],
    s: Scope,
    form: u64,
    bases: usize,
) -> usize
    requires { (t < 4294967296) × (bases < 65534) }
    ensures { (view_of (wide_of wide.new) (thin_of thin.new) result ≡ changed
        (declared_after (wide_of wide.old).values (thin_of thin.old).found op t s.own (based_in s.base) form)
        (view_of (wide_of wide.old) (thin_of thin.old) bases)) × (result ≤ bases + 1) }
{
    let own = s.own;
    let base = s.base;
    if op == tape::REGISTER {
        put_mean(
            wide,
            t,
            packed_as(Sort::Register, Width::Full, value(wide, t + 2)),
        );
        return bases;
    }
    if op == tape::ITEM {
        put_mean(wide, t, form);
        put_under(wide, t, base);
        return bases;
    }
    if op == tape::BASE {
        return open_base(wide, thin, own, t, bases);
    }
    if op == tape::PROCEDURE {
        declare_routine(wide, thin, t);
        return bases;
    }
    if op == tape::END_PROCEDURE {
        write_text(thin, own, t);
        return bases;
    }
    bases
}

// ── what statements write ──

fn write_target(thin: &mut [u16], own: usize, target: Option<u64>)
    ensures { (w : Wide) (n : ℕ) → view_of w (thin_of thin.new) n ≡ changed (write_target own target) (view_of w (thin_of thin.old) n) }
{
    if let Some(r) = target {
        write(thin, own, r);
    }
}

fn write_lower(thin: &mut [u16], own: usize, target: Option<u64>)
    ensures { (w : Wide) (n : ℕ) → view_of w (thin_of thin.new) n ≡ changed (write_lower own target) (view_of w (thin_of thin.old) n) }
{
    if let Some(r) = target {
        write(thin, own, r.saturating_sub(1));
    }
}

// The operator stands before its operand.
fn is_product(op: u32, t: usize, kinds: &[u8], wide: &[u64], thin: &[u16]) -> bool
    ensures { (under : List ℕ) → result ≡ is_product_at kinds.now (thin_of thin.now).found op t (meanings_of (wide_of wide.now).means under) }
{
    let times = kind(kinds, less(t, 1)) == token::kinds::TIMES;
    let number = tape::form(op) == tape::NUMBER;
    times & (number | is_long(meaning(wide, thin, t)))
}

fn write_product(
    op: u32,
    t: usize,
    kinds: &[u8],
    wide: &[u64],
    thin: &mut [u16],
    own: usize,
    target: Option<u64>,
)
    ensures { (n : ℕ) → view_of (wide_of wide.now) (thin_of thin.new) n ≡ changed
        (write_product kinds.now (thin_of thin.old).found op t own target)
        (view_of (wide_of wide.now) (thin_of thin.old) n) }
{
    if is_product(op, t, kinds, wide, thin) {
        write_lower(thin, own, target);
    }
}

// "A call writes the procedure's return register and all that its body's text writes".
fn write_call(wide: &[u64], thin: &mut [u16], own: usize, t: usize)
    ensures { (n : ℕ) → view_of (wide_of wide.now) (thin_of thin.new) n ≡ changed
        (call_writes (meaning_of (thin_of thin.old).found (meanings_of (wide_of wide.now).means (wide_of wide.now).under) t) own
        (get_or (thin_of thin.old).found t 0)) (view_of (wide_of wide.now) (thin_of thin.old) n) }
{
    let p = found(thin, t);
    let m = mean(wide, p);
    if is_routine(m) {
        write(thin, own, number(m));
        write_text(thin, own, p);
    }
}

fn written_after(
    op: u32,
    t: usize,
    kinds: &[u8],
    wide: &[u64],
    thin: &mut [u16],
    own: usize,
    target: Option<u64>,
)
    ensures { (n : ℕ) → view_of (wide_of wide.now) (thin_of thin.new) n ≡ changed
        (written_after kinds.now (thin_of thin.old).found op t own target)
        (view_of (wide_of wide.now) (thin_of thin.old) n) }
{
    let k = family(op);
    if (k == tape::TARGET) | (k == tape::CONTROL) | (op == tape::CHOSEN) | (k == tape::ARGUED) {
        write_target(thin, own, target);
        return;
    }
    if k == tape::TERM {
        write_product(op, t, kinds, wide, thin, own, target);
        return;
    }
    if op == tape::CALL {
        write_call(wide, thin, own, t);
    }
}

// ── the tape ──

// How many names are declared around the program.
const STANDARD_NAMES: usize = 25;

// Of them the first are the registers'.
const REGISTER_NAMES: usize = 16;

fn standard_meaning(n: usize) -> u64
    ensures { result ≡ standard_meaning n }
{
    if n < REGISTER_NAMES {
        return packed_as(Sort::Register, Width::Full, n as u64);
    }
    packed_as(Sort::Function, Width::Full, (n - REGISTER_NAMES) as u64)
}

// "R0 to R9 and RA to RF are declared in a block around the program.", and so are the standard functions.
fn name_standard(wide: &mut [u64])
    ensures { wide_of wide.new ≡ named_to standard_names (wide_of wide.old) }
{
    for n in 0..STANDARD_NAMES {
        put_mean(wide, n + 1, standard_meaning(n));
    }
}

// The base before any declaration: register 14, segment 1.
const DATA_BASE: u64 = 60129542145;

// What the names of a tape mean, what its base declarations open, what its procedures write; how many base declarations there were.
pub fn meanings(
    tape: &[u32],
    kinds: &[u8],
    wide: &mut [u64],
    thin: &mut [u16],
    owners: &mut [u64],
    outer: &mut [u64],
) -> usize
    requires { Roomy tape.now (length owners.old) (length outer.old) }
    ensures { view_of (wide_of wide.new) (thin_of thin.new) result ≡ changed
        (λ s. (pass (mean_event kinds.now (wide_of wide.old).values (thin_of thin.old).found) (beginning s) tape.now).meant) (view_of (named_to standard_names (wide_of wide.old)) (thin_of thin.old) 0) }
{
    name_standard(wide);
    let mut s = Scope {
        own: 0,
        owners: 0,
        base: DATA_BASE,
        outer: 0,
    };
    let mut form: u64 = 0;
    let mut target: Option<u64> = None;
    let mut first = false;
    let mut bases: usize = 0;
    for e in tape {
        let op = tape::op(*e);
        let t = tape::token(*e);
        s = within_after(op, t, wide, thin, bases, owners, outer, s);
        form = form_after(op, t, wide, form);
        target = target_after(op, t, wide, thin, first, target);
        first = first_after(op, t, wide, thin);
        bases = declared_after(op, t, wide, thin, s, form, bases);
        let own = s.own;
        written_after(op, t, kinds, wide, thin, own, target);
    }
    bases
}
