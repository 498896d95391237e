// The machine of document 01, "Runner": what its instructions do. Registers, storage and the map of the segments are lent, so that no turn moves more
// than what an instruction is given and what comes next.
#![tactic(auto)]

ghost use Rattle.std.specs.Prelude.{◌≡◌, true, ◌&&◌, List, ℕ, ◌+◌, ◌*◌, ◌/◌, ◌%◌, ◌^◌, ◌<◌, ◌≤◌, leb, length, get_or};
ghost use Rattle.machine.specs.Space.{room, needed, displacements, space_by, readable, writable};
ghost use Rattle.machine.specs.Step.{went, halted, stepped, applied, shifted_by, part as part_of, address as address_of, extended, executed, paired, asked, load_turn, store_step, compare_turn, multiply_turn, multiply_by_turn, branch_turn, branch_register_turn, link_turn, shift_turn, end_stop};
ghost use Rattle.machine.specs.Lent.{given, turn, ended};

use alu::Made;

// "Segment k goes to 4096·(k+1)": the room of a segment, and the pages of that size that are needed.
pub const ROOM: usize = 4096;

pub const PAGES: usize = 5;

// The map of what may be touched, three columns with an entry for each page: where its data segment ends, where its writable part begins and ends.
pub const ENDS: usize = 0;

pub const FROMS: usize = PAGES;

pub const TOS: usize = 2 * PAGES;

pub const MAP: usize = 3 * PAGES;

// "Addresses keep 24 bits".
const ADDRESSES: usize = 16777216;

// What ends a run: its budget, or an instruction that is not completed.
#[derive(Clone, Copy, PartialEq, Eq)]
pub enum Stop {
    BudgetUsed,
    AtEnd,
    Forbidden,
    Misaligned,
    NoInstruction,
}

// What an instruction makes of its first register and its second operand.
#[derive(Clone, Copy)]
pub enum Fun {
    Load,
    Add,
    Subtract,
    AddLogical,
    SubtractLogical,
    And,
    Or,
    ExclusiveOr,
    Compare,
    Positive,
    Negative,
    Complement,
    MultiplyHalf,
    Insert,
    Test,
}

#[derive(Clone, Copy)]
pub enum Shift {
    RightLogical,
    LeftLogical,
    Right,
    Left,
}

// Before an instruction: its register fields, its second operand (what a register holds, or an address), the condition code and the counter.
#[derive(Clone, Copy)]
pub struct Given {
    pub rx: u8,
    pub b: u32,
    pub code: u64,
    pub at: u32,
}

// After an instruction: the condition code, the counter, and the stop where it was not completed. 16 bytes on purpose.
#[derive(Clone, Copy)]
pub struct Next {
    pub code: u64,
    pub at: u32,
    pub stop: Option<Stop>,
}

// The two halves of a byte.
pub fn upper(x: u8) -> usize
    ensures { (result ≡ x / 16) × (result < 16) }
{
    (x / 16) as usize
}

pub fn lower(x: u8) -> usize
    ensures { (result ≡ x % 16) × (result < 16) }
{
    (x % 16) as usize
}

pub fn get(regs: &[u32; 16], i: usize) -> u32
    requires { i < 16 }
    ensures { result ≡ get_or regs.now i 0 }
{
    regs[i]
}

// What a register adds to an address: register 0 adds nothing.
fn part(regs: &[u32; 16], i: usize) -> usize
    requires { i < 16 }
    ensures { (result ≡ part_of regs.now i) × (result < 4294967296) }
{
    if i == 0 { 0 } else { get(regs, i) as usize }
}

pub fn address(regs: &[u32; 16], x: usize, b: usize, d: usize) -> u32
    requires { (x < 16) × (b < 16) × (d < displacements) }
    ensures { result ≡ address_of regs.now x b d }
{
    ((part(regs, b) + part(regs, x) + d) % ADDRESSES) as u32
}

pub fn halt(stop: Stop, code: u64, at: u32) -> Next
    ensures { result ≡ ended (Some stop) code at }
{
    Next {
        code,
        at,
        stop: Some(stop),
    }
}

fn go(code: u64, at: u32) -> Next
    ensures { result ≡ ended None code at }
{
    Next {
        code,
        at,
        stop: None,
    }
}

fn apply(f: Fun, a: u32, b: u32, code: u64) -> Made
    ensures { result ≡ applied f a b code }
{
    match f {
        Fun::Load => Made { value: b, code },
        Fun::Add => alu::add(a, b),
        Fun::Subtract => alu::subtract(a, b),
        Fun::AddLogical => alu::add_logical(a, b),
        Fun::SubtractLogical => alu::subtract_logical(a, b),
        Fun::And => alu::and(a, b),
        Fun::Or => alu::or(a, b),
        Fun::ExclusiveOr => alu::exclusive_or(a, b),
        Fun::Compare => Made {
            value: a,
            code: alu::compare(a, b),
        },
        Fun::Positive => alu::positive(b),
        Fun::Negative => alu::negative(b),
        Fun::Complement => alu::complement(b),
        Fun::MultiplyHalf => Made {
            value: alu::half_product(a, b),
            code,
        },
        Fun::Insert => Made {
            value: alu::insert(a, b),
            code,
        },
        Fun::Test => alu::test(b),
    }
}

// By an instruction of so many bytes.
pub fn execute(f: Fun, size: u32, g: Given, regs: &mut [u32; 16]) -> Next
    requires { (g.at < 2 * room) × (size ≤ 4) }
    ensures { turn result regs.new ≡ went (executed (given g regs.old) f (g.rx / 16) g.b (g.at + size)) }
{
    let r = upper(g.rx);
    let v = apply(f, get(regs, r), g.b, g.code);
    regs[r] = v.value;
    go(v.code, g.at + size)
}

// Kept: beside `is_writable`, which has another test in other columns; one function with both tests would be no plainer.
fn is_readable(map: &[usize; MAP], at: usize, n: usize) -> bool
    requires { (0 < n) × (n ≤ room) }
    ensures { (result ≡ readable (space_by 0 map.now) at n) × (result ≡ true → at < needed) }
{
    let k = at / ROOM;
    if k < PAGES {
        at % ROOM + n <= map[ENDS + k]
    } else {
        false
    }
}

fn is_writable(map: &[usize; MAP], at: usize, n: usize) -> bool
    requires { (0 < n) × (n ≤ room) }
    ensures { (result ≡ writable (space_by 0 map.now) at n) × (result ≡ true → at < needed) }
{
    let k = at / ROOM;
    let o = at % ROOM;
    if k < PAGES {
        (map[FROMS + k] <= o) & (o + n <= map[TOS + k])
    } else {
        false
    }
}

// A half word with copies of its sign in front.
fn extend(n: usize, v: u32) -> u32
    requires { v < 256 ^ n }
    ensures { result ≡ extended n v }
{
    if n == 2 {
        if v < 32768 { v } else { v + 4294901760 }
    } else {
        v
    }
}

// The same instruction with the operand that was read.
fn on(g: Given, b: u32) -> Given
    ensures { result ≡ record { rx = g.rx; b = b; code = g.code; at = g.at } }
{
    Given { b, ..g }
}

pub fn load_step(
    f: Fun,
    n: usize,
    g: Given,
    map: &[usize; MAP],
    regs: &mut [u32; 16],
    s: &[u8],
) -> Next
    requires { (g.at < 2 * room) × (needed ≤ length s.now) × (0 < n) × (n ≤ 4) × (needed % n ≡ 0) }
    ensures { turn result regs.new ≡ load_turn (space_by 0 map.now) (given g regs.old) f n (g.rx / 16) g.b s.now }
{
    let w = g.b as usize;
    if w % n != 0 {
        return halt(Stop::Misaligned, g.code, g.at);
    }
    if is_readable(map, w, n) {
        return execute(f, 4, on(g, extend(n, base::load(s, w, n))), regs);
    }
    halt(Stop::Forbidden, g.code, g.at)
}

// Of a number.
pub fn put_step(n: usize, v: u32, g: Given, map: &[usize; MAP], s: &mut [u8]) -> Next
    requires { (g.at < 2 * room) × (needed ≤ length s.old) × (0 < n) × (n ≤ 4) × (needed % n ≡ 0) }
    ensures { (rs : List ℕ) → stepped (turn result rs) s.new ≡ store_step (space_by 0 map.now) (given g rs) n v g.b s.old }
{
    let w = g.b as usize;
    if w % n != 0 {
        return halt(Stop::Misaligned, g.code, g.at);
    }
    if is_writable(map, w, n) {
        base::store(s, w, n, v);
        return go(g.code, g.at + 4);
    }
    halt(Stop::Forbidden, g.code, g.at)
}

// Of a register.
pub fn store_step(n: usize, g: Given, map: &[usize; MAP], regs: &[u32; 16], s: &mut [u8]) -> Next
    requires { (g.at < 2 * room) × (needed ≤ length s.old) × (0 < n) × (n ≤ 4) × (needed % n ≡ 0) }
    ensures { stepped (turn result regs.now) s.new ≡ store_step (space_by 0 map.now) (given g regs.now) n (get_or regs.now (g.rx / 16) 0) g.b s.old }
{
    put_step(n, get(regs, upper(g.rx)), g, map, s)
}

// The byte in storage is compared with the number.
pub fn compare_step(g: Given, map: &[usize; MAP], s: &[u8]) -> Next
    requires { (g.at < 2 * room) × (needed ≤ length s.now) }
    ensures { (rs : List ℕ) → turn result rs ≡ compare_turn (space_by 0 map.now) (given g rs) g.rx g.b s.now }
{
    let w = g.b as usize;
    if is_readable(map, w, 1) {
        return go(
            alu::compare_logical(base::load(s, w, 1), g.rx as u32),
            g.at + 4,
        );
    }
    halt(Stop::Forbidden, g.code, g.at)
}

// The product of register r + 1 in registers r and r + 1.
fn pair(size: u32, g: Given, regs: &mut [u32; 16]) -> Next
    requires { (g.rx / 16 % 2 ≡ 0) × (g.at < 2 * room) × (size ≤ 4) }
    ensures { turn result regs.new ≡ went (paired (given g regs.old) (g.rx / 16) g.b (g.at + size)) }
{
    let r = (g.rx / 16) as usize;
    let p = alu::product(get(regs, r + 1), g.b);
    regs[r] = (p / 4294967296) as u32;
    regs[r + 1] = (p % 4294967296) as u32;
    go(g.code, g.at + size)
}

pub fn multiply_step(g: Given, regs: &mut [u32; 16]) -> Next
    requires { g.at < 2 * room }
    ensures { turn result regs.new ≡ multiply_turn (given g regs.old) (g.rx / 16) g.b }
{
    if g.rx / 16 % 2 != 0 {
        return halt(Stop::NoInstruction, g.code, g.at);
    }
    pair(2, g, regs)
}

pub fn multiply_word_step(g: Given, map: &[usize; MAP], regs: &mut [u32; 16], s: &[u8]) -> Next
    requires { (g.at < 2 * room) × (needed ≤ length s.now) }
    ensures { turn result regs.new ≡ multiply_by_turn (space_by 0 map.now) (given g regs.old) (g.rx / 16) g.b s.now }
{
    let w = g.b as usize;
    if g.rx / 16 % 2 != 0 {
        return halt(Stop::NoInstruction, g.code, g.at);
    }
    if w % 4 != 0 {
        return halt(Stop::Misaligned, g.code, g.at);
    }
    if is_readable(map, w, 4) {
        return pair(4, on(g, base::load(s, w, 4)), regs);
    }
    halt(Stop::Forbidden, g.code, g.at)
}

// Whether the mask's bit for the code is set.
fn is_asked(m: u8, code: u64) -> bool
    ensures { result ≡ asked m code }
{
    if code == 0 {
        return m / 8 % 2 == 1;
    }
    if code == 1 {
        return m / 4 % 2 == 1;
    }
    if code == 2 {
        return m / 2 % 2 == 1;
    }
    m % 2 == 1
}

pub fn branch_register_step(g: Given) -> Next
    requires { g.at < 2 * room }
    ensures { (rs : List ℕ) → turn result rs ≡ branch_register_turn (given g rs) (g.rx / 16) (g.rx % 16) g.b }
{
    if g.rx % 16 == 0 {
        return go(g.code, g.at + 2);
    }
    if is_asked(g.rx / 16, g.code) {
        return go(g.code, ((g.b as usize) % ADDRESSES) as u32);
    }
    go(g.code, g.at + 2)
}

pub fn branch_step(g: Given) -> Next
    requires { g.at < 2 * room }
    ensures { (rs : List ℕ) → turn result rs ≡ branch_turn (given g rs) (g.rx / 16) g.b }
{
    if is_asked(g.rx / 16, g.code) {
        return go(g.code, g.b);
    }
    go(g.code, g.at + 4)
}

pub fn link_step(g: Given, regs: &mut [u32; 16]) -> Next
    requires { g.at < 2 * room }
    ensures { turn result regs.new ≡ link_turn (given g regs.old) (g.rx / 16) g.b }
{
    let r = upper(g.rx);
    regs[r] = 2147483648 + (g.code % 4) as u32 * 268435456 + (g.at + 4);
    go(g.code, g.b)
}

pub fn service_step(g: Given) -> Next
    ensures { (rs : List ℕ) → turn result rs ≡ halted (end_stop g.rx) (given g rs) }
{
    if g.rx == 0 {
        halt(Stop::AtEnd, g.code, g.at)
    } else {
        halt(Stop::NoInstruction, g.code, g.at)
    }
}

fn shifted(f: Shift, a: u32, n: u32, code: u64) -> Made
    requires { n < 64 }
    ensures { result ≡ shifted_by f a n code }
{
    match f {
        Shift::RightLogical => Made {
            value: alu::shift_right_logical(a, n),
            code,
        },
        Shift::LeftLogical => Made {
            value: alu::shift_left_logical(a, n),
            code,
        },
        Shift::Right => alu::shift_right(a, n),
        Shift::Left => alu::shift_left(a, n),
    }
}

pub fn shift_step(f: Shift, g: Given, regs: &mut [u32; 16]) -> Next
    requires { g.at < 2 * room }
    ensures { turn result regs.new ≡ shift_turn (given g regs.old) f (g.rx / 16) g.b }
{
    let r = upper(g.rx);
    let v = shifted(f, get(regs, r), g.b % 64, g.code);
    regs[r] = v.value;
    go(v.code, g.at + 4)
}
