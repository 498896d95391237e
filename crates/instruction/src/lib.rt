// Document 01, "Runner", with the byte functions of document 02, 1/13: one instruction, from its bytes. Every opcode has an arm of its own that calls a shared function with a constant.
#![tactic(auto)]

ghost use Rattle.std.specs.Prelude.{◌≡◌, List, ℕ, ◌+◌, ◌*◌, ◌/◌, ◌%◌, ◌<◌, ◌≤◌, length};
ghost use Rattle.machine.specs.Space.{room, needed, displacements, Space, space_by};
ghost use Rattle.machine.specs.Step.{address as address_of, cpu, stepped, short_on, long_on, step as step_of};
ghost use Rattle.machine.specs.Instructions.{short_kind, shift_kind, plain_kind, read_kind, storage_kind};
ghost use Rattle.machine.specs.Lent.{given, turn};

use machine::{
    Fun, Given, MAP, Next, ROOM, Shift, Stop, address, branch_register_step, branch_step,
    compare_step, execute, get, halt, link_step, load_step, lower, multiply_step,
    multiply_word_step, put_step, service_step, shift_step, store_step, upper,
};

// "Two bytes: opcode, r·16+s".
fn short(op: u8, g: Given, regs: &mut [u32; 16]) -> Next
    requires { g.at < 2 * room }
    ensures { turn result regs.new ≡ short_on (short_kind op) g.rx g.b (given g regs.old) }
{
    match op {
        0x07 => branch_register_step(g),
        0x0A => service_step(g),
        0x10 => execute(Fun::Positive, 2, g, regs),
        0x11 => execute(Fun::Negative, 2, g, regs),
        0x12 => execute(Fun::Test, 2, g, regs),
        0x13 => execute(Fun::Complement, 2, g, regs),
        0x14 => execute(Fun::And, 2, g, regs),
        0x16 => execute(Fun::Or, 2, g, regs),
        0x17 => execute(Fun::ExclusiveOr, 2, g, regs),
        0x18 => execute(Fun::Load, 2, g, regs),
        0x19 => execute(Fun::Compare, 2, g, regs),
        0x1A => execute(Fun::Add, 2, g, regs),
        0x1B => execute(Fun::Subtract, 2, g, regs),
        0x1C => multiply_step(g, regs),
        0x1E => execute(Fun::AddLogical, 2, g, regs),
        0x1F => execute(Fun::SubtractLogical, 2, g, regs),
        _ => halt(Stop::NoInstruction, g.code, g.at),
    }
}

fn shift(op: u8, g: Given, regs: &mut [u32; 16]) -> Next
    requires { g.at < 2 * room }
    ensures { (m : Space) (s : List ℕ) → stepped (turn result regs.new) s ≡ long_on (shift_kind op) m g.rx g.b (given g regs.old) s }
{
    match op {
        0x88 => shift_step(Shift::RightLogical, g, regs),
        0x89 => shift_step(Shift::LeftLogical, g, regs),
        0x8A => shift_step(Shift::Right, g, regs),
        0x8B => shift_step(Shift::Left, g, regs),
        _ => halt(Stop::NoInstruction, g.code, g.at),
    }
}

// What stores nothing: the address itself and one byte of storage, of two bytes and the branches, of four bytes.
fn reading(op: u8, g: Given, map: &[usize; MAP], regs: &mut [u32; 16], s: &[u8]) -> Next
    requires { (g.at < 2 * room) × (needed ≤ length s.now) }
    ensures { (p : ℕ) → stepped (turn result regs.new) s.now ≡ long_on (read_kind op) (space_by p map.now) g.rx g.b (given g regs.old) s.now }
{
    match op {
        0x41 => execute(Fun::Load, 4, g, regs),
        0x43 => load_step(Fun::Insert, 1, g, map, regs, s),
        0x45 => link_step(g, regs),
        0x47 => branch_step(g),
        0x48 => load_step(Fun::Load, 2, g, map, regs, s),
        0x49 => load_step(Fun::Compare, 2, g, map, regs, s),
        0x4A => load_step(Fun::Add, 2, g, map, regs, s),
        0x4B => load_step(Fun::Subtract, 2, g, map, regs, s),
        0x4C => load_step(Fun::MultiplyHalf, 2, g, map, regs, s),
        0x54 => load_step(Fun::And, 4, g, map, regs, s),
        0x56 => load_step(Fun::Or, 4, g, map, regs, s),
        0x57 => load_step(Fun::ExclusiveOr, 4, g, map, regs, s),
        0x58 => load_step(Fun::Load, 4, g, map, regs, s),
        0x59 => load_step(Fun::Compare, 4, g, map, regs, s),
        0x5A => load_step(Fun::Add, 4, g, map, regs, s),
        0x5B => load_step(Fun::Subtract, 4, g, map, regs, s),
        0x5C => multiply_word_step(g, map, regs, s),
        0x5E => load_step(Fun::AddLogical, 4, g, map, regs, s),
        0x5F => load_step(Fun::SubtractLogical, 4, g, map, regs, s),
        _ => halt(Stop::NoInstruction, g.code, g.at),
    }
}

// What names an address with an index.
fn storage(op: u8, g: Given, map: &[usize; MAP], regs: &mut [u32; 16], s: &mut [u8]) -> Next
    requires { (g.at < 2 * room) × (needed ≤ length s.old) }
    ensures { (p : ℕ) → stepped (turn result regs.new) s.new ≡ long_on (storage_kind op) (space_by p map.now) g.rx g.b (given g regs.old) s.old }
{
    match op {
        0x40 => store_step(2, g, map, regs, s),
        0x42 => store_step(1, g, map, regs, s),
        0x50 => store_step(4, g, map, regs, s),
        _ => reading(op, g, map, regs, s),
    }
}

// What names an address without one: a number to storage or compared with it, and the shifts.
fn plain(op: u8, g: Given, map: &[usize; MAP], regs: &mut [u32; 16], s: &mut [u8]) -> Next
    requires { (g.at < 2 * room) × (needed ≤ length s.old) }
    ensures { (p : ℕ) → stepped (turn result regs.new) s.new ≡ long_on (plain_kind op) (space_by p map.now) g.rx g.b (given g regs.old) s.old }
{
    match op {
        0x92 => put_step(1, g.rx as u32, g, map, s),
        0x95 => compare_step(g, map, s),
        _ => shift(op, g, regs),
    }
}

fn displacement(bd: u8, d: u8) -> usize
    ensures { (result ≡ bd % 16 * 256 + d) × (result < displacements) }
{
    (bd % 16) as usize * 256 + (d as usize)
}

// "base·16 + displacement/256, displacement mod 256": the address that the last two bytes name, with an index.
fn named(regs: &[u32; 16], x: usize, third: u8, fourth: u8) -> u32
    requires { x < 16 }
    ensures { result ≡ address_of regs.now x (third / 16) (third % 16 * 256 + fourth) }
{
    address(regs, x, upper(third), displacement(third, fourth))
}

pub fn step(
    program: usize,
    map: &[usize; MAP],
    regs: &mut [u32; 16],
    s: &mut [u8],
    code: u64,
    at: u32,
) -> Next
    requires { (program ≤ room) × (needed ≤ length s.old) }
    ensures { stepped (turn result regs.new) s.new ≡ step_of (space_by program map.now) (cpu regs.old code at) s.old }
{
    let i = at as usize;
    if i % 2 != 0 {
        return halt(Stop::NoInstruction, code, at);
    }
    if i < ROOM {
        return halt(Stop::NoInstruction, code, at);
    }
    if ROOM + program < i + 2 {
        return halt(Stop::NoInstruction, code, at);
    }
    let op = s[i];
    let rx = s[i + 1];
    if op < 64 {
        return short(
            op,
            Given {
                rx,
                b: get(regs, lower(rx)),
                code,
                at,
            },
            regs,
        );
    }
    if ROOM + program < i + 4 {
        return halt(Stop::NoInstruction, code, at);
    }
    let third = s[i + 2];
    let fourth = s[i + 3];
    if op < 128 {
        return storage(
            op,
            Given {
                rx,
                b: named(regs, lower(rx), third, fourth),
                code,
                at,
            },
            map,
            regs,
            s,
        );
    }
    plain(
        op,
        Given {
            rx,
            b: named(regs, 0, third, fourth),
            code,
            at,
        },
        map,
        regs,
        s,
    )
}
