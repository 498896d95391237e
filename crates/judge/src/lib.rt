// Document 01, "Names, cells, protected registers": refusals 8 to 12 of a text but for the layout's, in one loop along the tape.
#![tactic(auto)]

ghost use Rattle.std.specs.Prelude.{◌≡◌, List, Bool, ℕ, ◌+◌, ◌-◌, ◌/◌, ◌≤◌, ◌<◌, length, get_or};
ghost use Rattle.tape.specs.Pass.{pass};
ghost use Rattle.ledger.specs.Book.{wide_of, thin_of};
ghost use Rattle.ledger.specs.Bounds.{blocks_open, Nested};
ghost use Rattle.scopes.specs.Broken.{◌⊕◌};
ghost use Rattle.static_rules.specs.Meaning.{Based};
ghost use Rattle.static_rules.specs.Tables.{Tables, meaning_at};
ghost use Rattle.static_rules.specs.Rules.{register_rule, zero_rule, operand_rules};
ghost use Rattle.tables.specs.Packed.{number_in, unpacked};
ghost use Rattle.tables.specs.Stacks.{stack_of};
ghost use Rattle.rules.specs.Parts.{designator_at, operand_at};
ghost use Rattle.rules.specs.Shows.{Listed, Shown};
ghost use Rattle.judge.specs.Along.{enter_block, leave_block, keep_base, keep_return, leave_procedure, held_after, cells_after, value_rule, aim_of, open_after, register_target, aim_by, control_by, sign_rule, first_rules, chain_rule, declaration_rule, assignment_rule, statement_rule, event_rule, judge_event, beginning, held_of, Moved, Stays};

use arrays::{kind, put_wide};
use ledger::{meaning, put_offset, value};
use rules::{
    argued_rules, base_rules, call_rules, counted_rules, element_rules, is_bare, no_byte,
    only_register, operand_rules, register_rule, taken_rules, term_rules, used_register,
    write_rule,
};
use scopes::{Broken, Refusal, join, join_to, rule};
use tables::{is_cell, is_register, number, register, top};
use tape::{family, layer};

// What the cells that follow are, how wide and of how many elements, and for how many more values the last has room.
#[derive(Clone, Copy)]
pub struct Cells {
    pub width: u32,
    pub elements: u64,
    pub room: u64,
}

// What an assignment goes to, by what its target means: a cell, a register, or what it cannot go to, and is not judged further.
#[derive(Clone, Copy)]
pub enum Target {
    Unfit,
    Cell,
    Register(usize),
}

// What stands open in a statement: the target of an assignment; the token of a use's name and how many arguments it has had.
#[derive(Clone, Copy)]
pub struct Open {
    pub target: Target,
    pub name: usize,
    pub position: usize,
}

// How many registers are protected, how many of them are bases of the innermost block, and how many blocks are open.
#[derive(Clone, Copy)]
pub struct Depths {
    pub kept: usize,
    pub count: usize,
    pub counts: usize,
}

// ── the protected registers ──

fn enter_block(counts: &mut [u64], d: Depths) -> Depths
    requires { d.counts < length counts.old }
    ensures { (kept : List ℕ) → Moved (enter_block (held_of kept counts.old d)) kept counts.new d result }
{
    put_wide(counts, d.counts, d.count as u64);
    Depths {
        count: 0,
        counts: d.counts + 1,
        ..d
    }
}

fn leave_block(counts: &[u64], d: Depths) -> Depths
    ensures { (kept : List ℕ) → Moved (leave_block (held_of kept counts.now d)) kept counts.now d result }
{
    Depths {
        kept: d.kept.saturating_sub(d.count),
        count: top(counts, d.counts) as usize,
        counts: d.counts.saturating_sub(1),
    }
}

fn keep_base(wide: &mut [u64], r: u64, d: Depths) -> Depths
    requires { (d.kept < length (wide_of wide.old).offsets) × ((d.kept ≤ 4294967296) × (d.count < 4294967296)) }
    ensures { ((counts : List ℕ)
        → Moved (keep_base r (held_of (wide_of wide.old).offsets counts d)) (wide_of wide.new).offsets counts d result)
        × Stays (wide_of wide.old) (wide_of wide.new) }
{
    put_offset(wide, d.kept, r);
    Depths {
        kept: d.kept + 1,
        count: d.count + 1,
        ..d
    }
}

fn keep_return(wide: &mut [u64], r: u64, d: Depths) -> Depths
    requires { (d.kept < length (wide_of wide.old).offsets) × (d.kept ≤ 4294967296) }
    ensures { ((counts : List ℕ)
        → Moved (keep_return r (held_of (wide_of wide.old).offsets counts d)) (wide_of wide.new).offsets counts d result)
        × Stays (wide_of wide.old) (wide_of wide.new) }
{
    put_offset(wide, d.kept, r);
    Depths {
        kept: d.kept + 1,
        ..d
    }
}

fn leave_procedure(d: Depths) -> Depths
    ensures { (kept counts : List ℕ) → Moved (leave_procedure (held_of kept counts d)) kept counts d result }
{
    Depths {
        kept: d.kept.saturating_sub(1),
        ..d
    }
}

fn held_after(
    op: u32,
    t: usize,
    wide: &mut [u64],
    thin: &[u16],
    counts: &mut [u64],
    d: Depths,
) -> Depths
    requires { (t < 4294967296) × ((d.kept < length (wide_of wide.old).offsets)
        × ((d.kept ≤ 4294967296) × ((d.count < 4294967296) × (blocks_open op d.counts ≤ length counts.old)))) }
    ensures { ((f : Tables) → Listed f (wide_of wide.old) (thin_of thin.now)
        → Moved (held_after f op t (held_of (wide_of wide.old).offsets counts.old d)) (wide_of wide.new).offsets counts.new d result)
        × Stays (wide_of wide.old) (wide_of wide.new) }
{
    if op == tape::BLOCK {
        return enter_block(counts, d);
    }
    if op == tape::END_BLOCK {
        return leave_block(counts, d);
    }
    if op == tape::BASE {
        let r = register(meaning(wide, thin, t));
        return keep_base(wide, r, d);
    }
    if op == tape::PROCEDURE {
        let r = register(meaning(wide, thin, t + 2));
        return keep_return(wide, r, d);
    }
    if op == tape::END_PROCEDURE {
        return leave_procedure(d);
    }
    d
}

// ── cells and their values ──

fn cells_after(op: u32, t: usize, wide: &[u64], c: Cells) -> Cells
    ensures { (f : Tables) → f.values ≡ (wide_of wide.now).values → result ≡ cells_after f op t c }
{
    let k = family(op);
    let width = tape::form(op);
    if k == tape::SINGLE_FULL {
        return Cells {
            width,
            elements: 1,
            ..c
        };
    }
    if k == tape::ARRAY_FULL {
        return Cells {
            width,
            elements: value(wide, t),
            ..c
        };
    }
    if op == tape::ITEM {
        return Cells {
            room: c.elements,
            ..c
        };
    }
    if op == tape::VALUE {
        return Cells {
            room: c.room.saturating_sub(1),
            ..c
        };
    }
    c
}

// "A value for a short cell has signed value -32768 to 65535"; of byte cells "initial values 0 to 255".
fn value_rule(c: Cells, v: u64, t: usize) -> Option<Broken>
    ensures { result ≡ value_rule c v t }
{
    if c.room == 0 {
        return Refusal::OutOfBounds.at(t);
    }
    if c.width == tape::FULL {
        return None;
    }
    if c.width == tape::SHORT {
        return rule((v <= 65535) | (4294934528 <= v), Refusal::OutOfBounds, t);
    }
    rule(v <= 255, Refusal::OutOfBounds, t)
}

// ── what stands open in a statement ──

fn aim_of(m: u64) -> Target
    ensures { (n : ℕ) (b : Based) → result ≡ aim_of (unpacked n m b) }
{
    if is_register(m) {
        return Target::Register(number(m) as usize);
    }
    if is_cell(m) {
        return Target::Cell;
    }
    Target::Unfit
}

fn open_after(op: u32, t: usize, wide: &[u64], thin: &[u16], o: Open) -> Open
    requires { o.position < 4294967296 }
    ensures { (f : Tables) → Listed f (wide_of wide.now) (thin_of thin.now) → result ≡ open_after f op t o }
{
    let k = family(op);
    if (k == tape::TARGET) | (k == tape::CONTROL) {
        return Open {
            target: aim_of(meaning(wide, thin, t)),
            ..o
        };
    }
    if op == tape::APPLIED {
        return Open {
            name: t,
            position: 0,
            ..o
        };
    }
    if k == tape::ARGUED {
        let position = o.position + 1;
        return Open { position, ..o };
    }
    o
}

// A register that a whole chain goes to.
fn register_target(shape: u32, wide: &[u64], depth: usize, m: u64, t: usize) -> Option<Broken>
    ensures { result ≡ register_target (stack_of (wide_of wide.now).offsets depth) (designator_at shape t) (number_in m) }
{
    let bare = rule(is_bare(shape), Refusal::Misfit, t);
    join(bare, write_rule(wide, depth, number(m), t))
}

fn aim_rules(shape: u32, wide: &[u64], thin: &[u16], depth: usize, t: usize) -> Option<Broken>
    requires { t < 4294967296 }
    ensures { (f : Tables) → Listed f (wide_of wide.now) (thin_of thin.now)
        → result ≡ aim_by f (stack_of (wide_of wide.now).offsets depth) (designator_at shape t) (meaning_at f t) }
{
    let m = meaning(wide, thin, t);
    if is_register(m) {
        return register_target(shape, wide, depth, m, t);
    }
    if is_cell(m) {
        let fits = element_rules(shape, m, wide, thin, t);
        return join(fits, no_byte(wide, thin, t));
    }
    Refusal::Misfit.at(t)
}

fn control_rules(shape: u32, wide: &[u64], thin: &[u16], depth: usize, t: usize) -> Option<Broken>
    ensures { (f : Tables) → Listed f (wide_of wide.now) (thin_of thin.now)
        → result ≡ control_by (stack_of (wide_of wide.now).offsets depth) (designator_at shape t) (meaning_at f t) }
{
    let m = meaning(wide, thin, t);
    if is_register(m) {
        return register_target(shape, wide, depth, m, t);
    }
    Refusal::Misfit.at(t)
}

fn sign_rule(target: Target, t: usize) -> Option<Broken>
    ensures { result ≡ sign_rule target t }
{
    match target {
        Target::Unfit => None,
        Target::Cell => Refusal::Misfit.at(t),
        Target::Register(_) => None,
    }
}

fn first_rules(target: Target, shape: u32, wide: &[u64], thin: &[u16], t: usize) -> Option<Broken>
    requires { t < 4294967296 }
    ensures { (f : Tables) → Listed f (wide_of wide.now) (thin_of thin.now) → result ≡ first_rules f target (operand_at shape t) }
{
    match target {
        Target::Unfit => None,
        Target::Cell => only_register(shape, wide, thin, t),
        Target::Register(_) => operand_rules(shape, wide, thin, t),
    }
}

fn chain_rule(
    target: Target,
    shape: u32,
    kinds: &[u8],
    wide: &[u64],
    thin: &[u16],
    depth: usize,
    t: usize,
) -> Option<Broken>
    requires { t < 4294967296 }
    ensures { (f : Tables) → Shown f kinds.now (wide_of wide.now) (thin_of thin.now)
        → result ≡ chain_rule f (stack_of (wide_of wide.now).offsets depth) target shape t }
{
    let operator = t.saturating_sub(1);
    match target {
        Target::Unfit => None,
        Target::Cell => Refusal::Misfit.at(operator),
        Target::Register(r) => {
            let k = kind(kinds, operator);
            term_rules(k, shape, wide, thin, depth, r, t)
        }
    }
}

// ── an event ──

// "array count not 1 to 2,048"
const MOST_ELEMENTS: u64 = 2048;

fn declaration_rule(
    op: u32,
    t: usize,
    wide: &[u64],
    thin: &[u16],
    depth: usize,
    c: Cells,
) -> Option<Broken>
    requires { t < 4294967296 }
    ensures { (f : Tables) → Listed f (wide_of wide.now) (thin_of thin.now)
        → result ≡ declaration_rule f (stack_of (wide_of wide.now).offsets depth) c op t }
{
    let k = family(op);
    if op == tape::REGISTER {
        return rule(value(wide, t + 2) <= 15, Refusal::WrongRegister, t + 2);
    }
    if k == tape::ARRAY_FULL {
        let v = value(wide, t);
        return rule((1 <= v) & (v <= MOST_ELEMENTS), Refusal::OutOfBounds, t);
    }
    if op == tape::VALUE {
        return value_rule(c, value(wide, t), t);
    }
    if op == tape::BASE {
        return base_rules(wide, thin, depth, t);
    }
    if op == tape::PROCEDURE {
        return used_register(wide, thin, t + 2);
    }
    None
}

fn assignment_rule(
    op: u32,
    t: usize,
    kinds: &[u8],
    wide: &[u64],
    thin: &[u16],
    depth: usize,
    target: Target,
) -> Option<Broken>
    requires { t < 4294967296 }
    ensures { (f : Tables) → Shown f kinds.now (wide_of wide.now) (thin_of thin.now)
        → result ≡ assignment_rule f (stack_of (wide_of wide.now).offsets depth) target op t }
{
    let k = family(op);
    let shape = tape::form(op);
    if k == tape::TARGET {
        return aim_rules(shape, wide, thin, depth, t);
    }
    if k == tape::CONTROL {
        return control_rules(shape, wide, thin, depth, t);
    }
    if k == tape::FIRST {
        return first_rules(target, shape, wide, thin, t);
    }
    if k == tape::TERM {
        return chain_rule(target, shape, kinds, wide, thin, depth, t);
    }
    if (op == tape::ABS) | ((op == tape::NEG) | (op == tape::NEG_ABS)) {
        return sign_rule(target, t);
    }
    None
}

// The register of a condition stands two tokens before its operand.
fn compared_rules(shape: u32, wide: &[u64], thin: &[u16], t: usize) -> Option<Broken>
    requires { t < 4294967296 }
    ensures { (f : Tables) → Listed f (wide_of wide.now) (thin_of thin.now)
        → result ≡ register_rule f (t - 2) ⊕ operand_rules f (operand_at shape t) }
{
    let n = t.saturating_sub(2);
    let compared = register_rule(meaning(wide, thin, n), n);
    join(compared, operand_rules(shape, wide, thin, t))
}

fn statement_rule(
    op: u32,
    t: usize,
    kinds: &[u8],
    wide: &[u64],
    thin: &[u16],
    depth: usize,
    o: Open,
) -> Option<Broken>
    requires { t < 4294967296 }
    ensures { (f : Tables) → Shown f kinds.now (wide_of wide.now) (thin_of thin.now)
        → result ≡ statement_rule f (stack_of (wide_of wide.now).offsets depth) o op t }
{
    let k = family(op);
    if k == tape::COMPARED {
        return compared_rules(tape::form(op), wide, thin, t);
    }
    if k == tape::LIMIT {
        return operand_rules(tape::form(op), wide, thin, t);
    }
    if op == tape::CALL {
        return call_rules(wide, thin, depth, t);
    }
    if k == tape::ARGUED {
        return argued_rules(o.name, o.position, tape::form(op), wide, thin, depth, t);
    }
    if op == tape::COUNTED {
        return counted_rules(wide, thin, t, o.position);
    }
    if op == tape::CHOSEN {
        return taken_rules(wide, thin, depth, t);
    }
    assignment_rule(op, t, kinds, wide, thin, depth, o.target)
}

fn event_rule(
    op: u32,
    t: usize,
    kinds: &[u8],
    wide: &[u64],
    thin: &[u16],
    depth: usize,
    c: Cells,
    o: Open,
) -> Option<Broken>
    requires { t < 4294967296 }
    ensures { (f : Tables) → Shown f kinds.now (wide_of wide.now) (thin_of thin.now)
        → result ≡ event_rule f (stack_of (wide_of wide.now).offsets depth) c o op t }
{
    if layer(op) == tape::PHRASE {
        return statement_rule(op, t, kinds, wide, thin, depth, o);
    }
    declaration_rule(op, t, wide, thin, depth, c)
}

// ── the tape ──

// The broken rule of a tape that is answered, by the tables of its tokens, with what else is broken in the text. The protected registers stand in the column
// of offsets, which is not yet in use.
pub fn judge(
    tape: &[u32],
    kinds: &[u8],
    wide: &mut [u64],
    thin: &[u16],
    counts: &mut [u64],
    others: Option<Broken>,
) -> Option<Broken>
    requires { (length tape.now < 4294967296) × ((length tape.now + 2 ≤ length wide.old / 4) × Nested (length counts.old) 0 0 tape.now) }
    ensures { ((f : Tables) → Shown f kinds.now (wide_of wide.old) (thin_of thin.now)
        → result ≡ (pass (judge_event f) (beginning others) tape.now).broken) × Stays (wide_of wide.old) (wide_of wide.new) }
{
    put_offset(wide, 0, 14);
    put_offset(wide, 1, 15);
    let mut d = Depths {
        kept: 2,
        count: 0,
        counts: 0,
    };
    let mut c = Cells {
        width: tape::FULL,
        elements: 0,
        room: 0,
    };
    let mut o = Open {
        target: Target::Unfit,
        name: 0,
        position: 0,
    };
    let mut least = others;
    for e in tape {
        let op = tape::op(*e);
        let t = tape::token(*e);
        join_to(
            &mut least,
            event_rule(op, t, kinds, wide, thin, d.kept, c, o),
        );
        d = held_after(op, t, wide, thin, counts, d);
        c = cells_after(op, t, wide, c);
        o = open_after(op, t, wide, thin, o);
    }
    least
}
