// Document 01, "Names, cells, protected registers": the rules on kinds, registers and values, refusals 8 to 12, one function each.
#![tactic(auto)]

ghost use Rattle.std.specs.Prelude.{◌≡◌, not, ℕ, ◌+◌, ◌-◌, ◌<◌, get_or};
ghost use Rattle.base.specs.Lists.{member};
ghost use Rattle.ledger.specs.Book.{wide_of, thin_of};
ghost use Rattle.scopes.specs.Broken.{rule as rule_of, ◌⊕◌};
ghost use Rattle.static_rules.specs.Registers.{spares as spares_of};
ghost use Rattle.static_rules.specs.Meaning.{Based, cell, argument_of};
ghost use Rattle.static_rules.specs.Tables.{Tables, meaning_at};
ghost use Rattle.static_rules.specs.Rules.{is_register, is_zero, inside, is_bare, shifts, full_only, write_rule, register_rule, zero_rule, index_rules, subscript_rules, place_by, place_rules, operand_rules, only_register, shift_rules, no_byte, no_short, product_rules, term_rules, call_rules, no_index, written_rules, byte_rules, cell_rules, plain_rules, argument_rules, count_by, taken_rules, base_rules};
ghost use Rattle.functions.specs.Arguments.{argument_by};
ghost use Rattle.tables.specs.Packed.{cell_in, unpacked, set_of};
ghost use Rattle.tables.specs.Stacks.{stack_of};
ghost use Rattle.rules.specs.Parts.{subscript_at, index_at, designator_at, operand_at, term_at};
ghost use Rattle.rules.specs.Shows.{Listed};

use functions::Argument;
use ledger::{found, mean, meaning, offset, opens, value, written};
use scopes::{Broken, Refusal, join, rule};
use tables::{
    element_size, is_array, is_byte, is_cell, is_function, is_long, is_register, is_routine,
    is_short, number, register,
};

// ── registers ──

fn is_kept(wide: &[u64], depth: usize, r: u64) -> bool
    ensures { result ≡ member r (stack_of (wide_of wide.now).offsets depth) }
{
    for i in (0..depth).rev() {
        if r == offset(wide, i) {
            return true;
        }
    }
    false
}

// "No statement, base declaration or call may write a protected register".
pub fn write_rule(wide: &[u64], depth: usize, r: u64, t: usize) -> Option<Broken>
    ensures { result ≡ write_rule (stack_of (wide_of wide.now).offsets depth) r t }
{
    rule(!is_kept(wide, depth, r), Refusal::Protected, t)
}

// The name at token t, which means m, is a register.
pub fn register_rule(m: u64, t: usize) -> Option<Broken>
    ensures { (n : ℕ) (b : Based) → result ≡ rule_of (is_register (unpacked n m b)) Refusal.Misfit t }
{
    rule(is_register(m), Refusal::Misfit, t)
}

// "0 as base, return, index, shift".
pub fn zero_rule(m: u64, t: usize) -> Option<Broken>
    ensures { (n : ℕ) (b : Based) → result ≡ rule_of (not (is_zero (unpacked n m b))) Refusal.WrongRegister t }
{
    rule(
        !(is_register(m) & (number(m) == 0)),
        Refusal::WrongRegister,
        t,
    )
}

// A base, a return register, an index or the register of a CASE.
pub fn used_register(wide: &[u64], thin: &[u16], t: usize) -> Option<Broken>
    ensures { (f : Tables) → Listed f (wide_of wide.now) (thin_of thin.now) → result ≡ register_rule f t ⊕ zero_rule f t }
{
    let m = meaning(wide, thin, t);
    join(register_rule(m, t), zero_rule(m, t))
}

// ── designators and operands ──

fn index_rules(shape: u32, wide: &[u64], thin: &[u16], t: usize) -> Option<Broken>
    requires { t < 4294967296 }
    ensures { (f : Tables) → Listed f (wide_of wide.now) (thin_of thin.now) → result ≡ index_rules f (index_at shape t) }
{
    if shape == tape::INDEXED {
        return used_register(wide, thin, t + 2);
    }
    if shape == tape::SUBSCRIPTED_INDEXED {
        return used_register(wide, thin, t + 5);
    }
    None
}

// "A subscript … is a multiple of the element size, and its element lies inside the array."; its 32 bits are read as signed.
fn is_inside(m: u64, v: u64) -> bool
    ensures { (n : ℕ) (b : Based) → result ≡ inside (cell_in n m b) v }
{
    let e = element_size(m);
    let n = number(m);
    (v < 2147483648) & ((v % e == 0) & (v / e < n))
}

fn subscript_rules(shape: u32, m: u64, wide: &[u64], t: usize) -> Option<Broken>
    requires { t < 4294967296 }
    ensures { (f : Tables) → f.values ≡ (wide_of wide.now).values → (n : ℕ) (b : Based)
        → result ≡ subscript_rules f (cell_in n m b) (subscript_at shape t) }
{
    if (shape == tape::SUBSCRIPTED) | (shape == tape::SUBSCRIPTED_INDEXED) {
        return rule(
            is_inside(m, value(wide, t + 2)),
            Refusal::OutOfBounds,
            t + 2,
        );
    }
    None
}

pub fn is_bare(shape: u32) -> bool
    ensures { (t : ℕ) → result ≡ is_bare (subscript_at shape t) (index_at shape t) }
{
    !((shape == tape::SUBSCRIPTED)
        | ((shape == tape::INDEXED) | (shape == tape::SUBSCRIPTED_INDEXED)))
}

// "A subscript … belongs only to arrays (else 8 at the name before it)", and so does an index.
pub fn element_rules(shape: u32, m: u64, wide: &[u64], thin: &[u16], t: usize) -> Option<Broken>
    requires { t < 4294967296 }
    ensures { (f : Tables) → Listed f (wide_of wide.now) (thin_of thin.now) → (n : ℕ) (b : Based)
        → result ≡ place_by f (cell (cell_in n m b)) (designator_at shape t) }
{
    let fits = rule(is_array(m) | is_bare(shape), Refusal::Misfit, t);
    let inside = subscript_rules(shape, m, wide, t);
    join(fits, join(inside, index_rules(shape, wide, thin, t)))
}

fn place_rules(shape: u32, wide: &[u64], thin: &[u16], t: usize) -> Option<Broken>
    requires { t < 4294967296 }
    ensures { (f : Tables) → Listed f (wide_of wide.now) (thin_of thin.now) → result ≡ place_rules f (designator_at shape t) }
{
    let m = meaning(wide, thin, t);
    if is_register(m) {
        return rule(is_bare(shape), Refusal::Misfit, t);
    }
    if is_cell(m) {
        return element_rules(shape, m, wide, thin, t);
    }
    Refusal::Misfit.at(t)
}

// "A byte cell in an assignment or condition, or as a FOR limit, is refusal 8."
pub fn no_byte(wide: &[u64], thin: &[u16], t: usize) -> Option<Broken>
    ensures { (f : Tables) → Listed f (wide_of wide.now) (thin_of thin.now) → (shape : ℕ) → result ≡ no_byte f (designator_at shape t) }
{
    let m = meaning(wide, thin, t);
    rule(!(is_cell(m) & is_byte(m)), Refusal::Misfit, t)
}

pub fn operand_rules(shape: u32, wide: &[u64], thin: &[u16], t: usize) -> Option<Broken>
    requires { t < 4294967296 }
    ensures { (f : Tables) → Listed f (wide_of wide.now) (thin_of thin.now) → result ≡ operand_rules f (operand_at shape t) }
{
    if shape == tape::NUMBER {
        return None;
    }
    let fits = place_rules(shape, wide, thin, t);
    join(fits, no_byte(wide, thin, t))
}

// One register name and nothing else.
pub fn only_register(shape: u32, wide: &[u64], thin: &[u16], t: usize) -> Option<Broken>
    ensures { (f : Tables) → Listed f (wide_of wide.now) (thin_of thin.now) → result ≡ only_register f (operand_at shape t) }
{
    if shape == tape::NUMBER {
        return Refusal::Misfit.at(t);
    }
    let m = meaning(wide, thin, t);
    rule(is_register(m) & is_bare(shape), Refusal::Misfit, t)
}

// ── chains ──

// "Shift operands are a number 0 to 63 or a register."
fn shift_rules(shape: u32, wide: &[u64], thin: &[u16], t: usize) -> Option<Broken>
    ensures { (f : Tables) → Listed f (wide_of wide.now) (thin_of thin.now) → result ≡ shift_rules f (operand_at shape t) }
{
    if shape == tape::NUMBER {
        return rule(value(wide, t) <= 63, Refusal::OutOfBounds, t);
    }
    let only = only_register(shape, wide, thin, t);
    join(only, zero_rule(meaning(wide, thin, t), t))
}

fn no_short(shape: u32, wide: &[u64], thin: &[u16], t: usize) -> Option<Broken>
    ensures { (f : Tables) → Listed f (wide_of wide.now) (thin_of thin.now) → result ≡ no_short f (operand_at shape t) }
{
    if shape == tape::NUMBER {
        return None;
    }
    let m = meaning(wide, thin, t);
    rule(!(is_cell(m) & is_short(m)), Refusal::Misfit, t)
}

// "`*` by a number, or by what begins with the name of a register or integer cell, needs an odd target and also writes the register below."
fn product_rules(
    shape: u32,
    wide: &[u64],
    thin: &[u16],
    depth: usize,
    r: usize,
    t: usize,
) -> Option<Broken>
    ensures { (f : Tables) → Listed f (wide_of wide.now) (thin_of thin.now)
        → result ≡ product_rules f (stack_of (wide_of wide.now).offsets depth) r (term_at shape t) }
{
    if (shape == tape::NUMBER) | is_long(meaning(wide, thin, t)) {
        let operator = t.saturating_sub(1);
        let odd = rule(r % 2 == 1, Refusal::WrongRegister, operator);
        return join(
            odd,
            write_rule(wide, depth, r.saturating_sub(1) as u64, operator),
        );
    }
    None
}

fn is_shift(k: u8) -> bool
    ensures { result ≡ member k shifts }
{
    (k == token::kinds::SHLL)
        | ((k == token::kinds::SHRL) | ((k == token::kinds::SHLA) | (k == token::kinds::SHRA)))
}

fn is_full_only(k: u8) -> bool
    ensures { result ≡ member k full_only }
{
    (k == token::kinds::AND)
        | ((k == token::kinds::OR)
            | ((k == token::kinds::XOR)
                | ((k == token::kinds::ADD_LOGICAL) | (k == token::kinds::SUBTRACT_LOGICAL))))
}

// A term in the chain of the target register r, whose operator is of kind k.
pub fn term_rules(
    k: u8,
    shape: u32,
    wide: &[u64],
    thin: &[u16],
    depth: usize,
    r: usize,
    t: usize,
) -> Option<Broken>
    requires { t < 4294967296 }
    ensures { (f : Tables) → Listed f (wide_of wide.now) (thin_of thin.now) → k ≡ get_or f.kinds (t - 1) 0
        → result ≡ term_rules f (stack_of (wide_of wide.now).offsets depth) r (term_at shape t) }
{
    if is_shift(k) {
        return shift_rules(shape, wide, thin, t);
    }
    let operand = operand_rules(shape, wide, thin, t);
    if k == token::kinds::TIMES {
        return join(product_rules(shape, wide, thin, depth, r, t), operand);
    }
    if is_full_only(k) {
        return join(operand, no_short(shape, wide, thin, t));
    }
    operand
}

// ── calls ──

// None of the protected registers is in the set.
fn spares(set: usize, wide: &[u64], depth: usize) -> bool
    ensures { result ≡ spares_of (set_of set) (stack_of (wide_of wide.now).offsets depth) }
{
    for i in (0..depth).rev() {
        if tables::has(set, offset(wide, i)) {
            return false;
        }
    }
    true
}

// "A call writes the procedure's return register and all that its body's text writes".
pub fn call_rules(wide: &[u64], thin: &[u16], depth: usize, t: usize) -> Option<Broken>
    ensures { (f : Tables) → Listed f (wide_of wide.now) (thin_of thin.now)
        → result ≡ call_rules f (stack_of (wide_of wide.now).offsets depth) t }
{
    let p = found(thin, t);
    let m = mean(wide, p);
    if is_routine(m) {
        let returns = write_rule(wide, depth, number(m), t);
        return join(
            returns,
            rule(spares(written(thin, p), wide, depth), Refusal::Protected, t),
        );
    }
    Refusal::Misfit.at(t)
}

// ── uses of functions ──

// "IC, LA and LTR write the first, so the protected rule counts it": at the register's name.
fn written_rules(shape: u32, wide: &[u64], thin: &[u16], depth: usize, t: usize) -> Option<Broken>
    ensures { (f : Tables) → Listed f (wide_of wide.now) (thin_of thin.now)
        → result ≡ written_rules f (stack_of (wide_of wide.now).offsets depth) (operand_at shape t) }
{
    if shape == tape::NUMBER {
        return None;
    }
    let m = meaning(wide, thin, t);
    if is_register(m) {
        return write_rule(wide, depth, number(m), t);
    }
    None
}

// "MVI and CLI take a number 0 to 255, else 11".
fn byte_rules(shape: u32, wide: &[u64], t: usize) -> Option<Broken>
    ensures { (f : Tables) → f.values ≡ (wide_of wide.now).values → result ≡ byte_rules f (operand_at shape t) }
{
    if shape == tape::NUMBER {
        return rule(value(wide, t) <= 255, Refusal::OutOfBounds, t);
    }
    Refusal::Misfit.at(t)
}

// "a cell that may be indexed", of any width.
fn cell_rules(shape: u32, wide: &[u64], thin: &[u16], t: usize) -> Option<Broken>
    requires { t < 4294967296 }
    ensures { (f : Tables) → Listed f (wide_of wide.now) (thin_of thin.now) → result ≡ cell_rules f (operand_at shape t) }
{
    if shape == tape::NUMBER {
        return Refusal::Misfit.at(t);
    }
    let sort = rule(is_cell(meaning(wide, thin, t)), Refusal::Misfit, t);
    join(sort, place_rules(shape, wide, thin, t))
}

// "an index there is refusal 8", at its name.
fn no_index(shape: u32, t: usize) -> Option<Broken>
    requires { t < 4294967296 }
    ensures { result ≡ no_index (index_at shape t) }
{
    if shape == tape::INDEXED {
        return Refusal::Misfit.at(t + 2);
    }
    if shape == tape::SUBSCRIPTED_INDEXED {
        return Refusal::Misfit.at(t + 5);
    }
    None
}

fn plain_rules(shape: u32, wide: &[u64], thin: &[u16], t: usize) -> Option<Broken>
    requires { t < 4294967296 }
    ensures { (f : Tables) → Listed f (wide_of wide.now) (thin_of thin.now) → result ≡ plain_rules f (operand_at shape t) }
{
    let cell = cell_rules(shape, wide, thin, t);
    if shape == tape::NUMBER {
        return cell;
    }
    join(cell, no_index(shape, t))
}

// "as is a wrong kind of argument".
fn argument_rules(
    takes: Argument,
    shape: u32,
    wide: &[u64],
    thin: &[u16],
    depth: usize,
    t: usize,
) -> Option<Broken>
    requires { t < 4294967296 }
    ensures { (f : Tables) → Listed f (wide_of wide.now) (thin_of thin.now)
        → result ≡ argument_rules f (stack_of (wide_of wide.now).offsets depth) (argument_by takes) (operand_at shape t) }
{
    match takes {
        Argument::WrittenRegister => {
            let only = only_register(shape, wide, thin, t);
            join(only, written_rules(shape, wide, thin, depth, t))
        }
        Argument::ReadRegister => only_register(shape, wide, thin, t),
        Argument::ByteNumber => byte_rules(shape, wide, t),
        Argument::IndexedCell => cell_rules(shape, wide, thin, t),
        Argument::PlainCell => plain_rules(shape, wide, thin, t),
        Argument::Surplus => None,
    }
}

// An argument of the name at token n, by its position.
pub fn argued_rules(
    n: usize,
    position: usize,
    shape: u32,
    wide: &[u64],
    thin: &[u16],
    depth: usize,
    t: usize,
) -> Option<Broken>
    requires { t < 4294967296 }
    ensures { (f : Tables) → Listed f (wide_of wide.now) (thin_of thin.now)
        → result ≡ argument_rules f (stack_of (wide_of wide.now).offsets depth) (argument_of (meaning_at f n) position) (operand_at shape t) }
{
    let takes = functions::takes(meaning(wide, thin, n), position);
    argument_rules(takes, shape, wide, thin, depth, t)
}

// "or a wrong count at the function's name"; what is no function takes no arguments at all.
pub fn counted_rules(wide: &[u64], thin: &[u16], n: usize, count: usize) -> Option<Broken>
    ensures { (f : Tables) → Listed f (wide_of wide.now) (thin_of thin.now) → result ≡ count_by (meaning_at f n) n count }
{
    let m = meaning(wide, thin, n);
    if is_function(m) {
        let arity = functions::meant(m).arity as usize;
        return rule(count == arity, Refusal::Misfit, n);
    }
    Refusal::Misfit.at(n)
}

// ── registers that the text takes for itself: of a base, of a CASE ──

// "0 as base"; document 02, 3/13: "Register 0 is refusal 9. The case register counts as written, refusal 10 at its name."
pub fn taken_rules(wide: &[u64], thin: &[u16], depth: usize, t: usize) -> Option<Broken>
    ensures { (f : Tables) → Listed f (wide_of wide.now) (thin_of thin.now)
        → result ≡ taken_rules f (stack_of (wide_of wide.now).offsets depth) t }
{
    let used = used_register(wide, thin, t);
    let r = register(meaning(wide, thin, t));
    join(used, write_rule(wide, depth, r, t))
}

pub fn base_rules(wide: &[u64], thin: &[u16], depth: usize, t: usize) -> Option<Broken>
    ensures { (f : Tables) → Listed f (wide_of wide.now) (thin_of thin.now)
        → result ≡ base_rules f (stack_of (wide_of wide.now).offsets depth) t }
{
    let taken = taken_rules(wide, thin, depth, t);
    join(taken, rule(opens(thin, t) <= 3, Refusal::NoRoom, t))
}
