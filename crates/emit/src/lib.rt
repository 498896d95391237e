// Document 01, "Code": the instructions of each event of a tape, by the tables of a text.
#![tactic(auto)]

ghost use Rattle.std.specs.Prelude.{◌≡◌, ℕ, ◌+◌, ◌-◌, ◌*◌, ◌≤◌, ◌<◌, length, get_or};
ghost use Rattle.tape.specs.Events.{TOKEN-LIMIT};
ghost use Rattle.ledger.specs.Book.{thin_limit};
ghost use Rattle.tables.specs.Packed.{register_in, packed_at};
ghost use Rattle.static_rules.specs.Functions as F;
ghost use Rattle.functions.specs.Arguments.{coded};
ghost use Rattle.translation.specs.Instructions.{row_of, false_mask};
ghost use Rattle.translation.specs.Core.{exit_mask};
ghost use Rattle.emit.specs.Books.{wide_in, thin_in};
ghost use Rattle.emit.specs.Codes.{opcode_in, IsRow, list_of, code_size, code_sizes, column_of, apply_code, apply_codes, apply_then, sign_code, signed_codes, load_codes, held_in, amount_in, is_long_use, product_register, shift_of, term_codes, first_codes, next_codes, is_immediate, half_of, function_codes, branch_code, link_code, base_code, stop_code};
ghost use Rattle.tape.specs.Numbers.{family_at};
ghost use Rattle.emit.specs.declared.Codes.TheVariants.{Head};
ghost use Rattle.emit.specs.Events.{subscript_in, index_in, element_in, place_by, place_in, use_in, return_in, register_at, goal_at, more as more_of, no_writing, sign_at, written_after, compared_codes, bare_codes, limit_codes, step_codes, second_codes, used_codes, chosen_codes, table_bytes, other_codes, codes_of, emitted_in};
ghost use Rattle.emit.specs.Along.{past_in, most_bytes, code_limit};

use arrays::kind;
use base::less;
use functions::Function;
use ledger::{found, goes, meaning, offset, opens, under, value, written};
use tables::{Width, is_cell, is_register, is_routine, number, register};
use token::kinds;

// What an operand is: nothing that fits; held in a register; a number; stored, by its width, at an index register, a base register and a displacement.
// Kept: `Absent` is a case and no `Option` around the others, since each match on an operand would name `Some` of each of them.
#[derive(Clone, Copy)]
pub enum Use {
    Absent,
    Held(u64),
    Number(u64),
    Stored(Width, u64, u64, u64),
}

// An instruction to be laid: of two bytes: opcode, r, s; of four: opcode, r, index, base, displacement; one that takes a number from storage: opcode, r, index,
// the number. Where an opcode takes a number 0 to 255, it stands in place of r and the index, by its halves.
#[derive(Clone, Copy)]
pub enum Code {
    Two(u64, u64, u64),
    Four(u64, u64, u64, u64, u64),
    Literal(u64, u64, u64, u64),
}

// The instructions of an event, in order. Those of a CASE are made of its register, how many statements it has, the address that is indexed and where it ends.
// Kept: an enum of a few and no list, since there is no heap, and an array of six instructions would be moved for each event, most of which make one or two.
#[derive(Clone, Copy)]
pub enum Codes {
    None,
    One(Code),
    Both(Code, Code),
    Head(u64, u64, u64, u64),
}

// What an event names: a register, and where it leads: the segment of a base, the procedure of a call, the label of a GOTO.
#[derive(Clone, Copy)]
pub struct Named {
    pub register: u64,
    pub goal: usize,
}

// What stands before an assignment's first operand.
#[derive(Clone, Copy, PartialEq, Eq)]
pub enum Sign {
    Abs,
    Neg,
    NegAbs,
}

// The assignment or the use of a function that is written: the target or the last argument; an assignment's sign; how many arguments a use has so far. Before the
// register of a CASE: how many statements it has.
#[derive(Clone, Copy)]
pub struct Writing {
    pub aim: Use,
    pub sign: Option<Sign>,
    pub arguments: u32,
}

// What is known of a text's tokens: their kinds, and the two slices of the ledger.
#[derive(Clone, Copy)]
pub struct Book<'a> {
    pub kinds: &'a [u8],
    pub wide: &'a [u64],
    pub thin: &'a [u16],
}

// What an event makes: its instructions, and what is written after it.
#[derive(Clone, Copy)]
pub struct Emitted {
    pub codes: Codes,
    pub writing: Writing,
}

// Past an event: the address behind all that it makes, and what is written after it.
#[derive(Clone, Copy)]
pub struct Past {
    pub at: usize,
    pub writing: Writing,
}

// ── the tables ──

// The code table by operator, a row a number: the opcodes with a register, an integer cell or number, a short cell and a byte cell, two digits each; 00 where there is
// no instruction.
const LOAD: u32 = 0x18584800; // :=

const ADD: u32 = 0x1a5a4a00; // +

const SUBTRACT: u32 = 0x1b5b4b00; // -

const TIMES: u32 = 0x1c5c4c00; // *

const ADD_LOGICAL: u32 = 0x1e5e0000; // ++

const SUBTRACT_LOGICAL: u32 = 0x1f5f0000; // --

const AND: u32 = 0x14540000;

const OR: u32 = 0x16560000;

const XOR: u32 = 0x17570000;

const COMPARE: u32 = 0x19594900;

const STORE: u32 = 0x00504000;

const CODES: [u32; 11] = [
    LOAD,
    ADD,
    SUBTRACT,
    TIMES,
    ADD_LOGICAL,
    SUBTRACT_LOGICAL,
    AND,
    OR,
    XOR,
    COMPARE,
    STORE,
];

// "Masks when a condition is false: = 7, ^= 9, < 11, <= 3, >= 5, > 13, OVERFLOW 14."
const FALSE_MASKS: [u64; 7] = [7, 9, 11, 3, 5, 13, 14];

// "Branch `47 m0`"; "Call: `45 r0`"; "`07 Fr`"; "The last instruction is `0A 00`."
pub const BRANCH: u64 = 0x47;

const LINK: u64 = 0x45;

const RETURN: u64 = 0x07;

const STOP: u64 = 0x0a;

// Of a CASE: "compare with the count as a literal", LTR, SHLL.
const COMPARE_NUMBER: u64 = 0x59;

const TEST: u64 = 0x12;

const SHIFT_LEFT: u64 = 0x89;

// "always is mask 15"
pub const ALWAYS: u64 = 15;

// "Program base is register 15. Data base is 14"
pub const PROGRAM_BASE: u64 = 15;

pub const DATA_BASE: u64 = 14;

// The opcode in a column of a row.
fn opcode(row: u32, column: usize) -> u64
    ensures { (result ≡ opcode_in row column) × (result < 256) }
{
    let all = row as u64;
    match column {
        0 => all / 16777216 % 256,
        1 => all / 65536 % 256,
        2 => all / 256 % 256,
        _ => all % 256,
    }
}

// By the kind of an operator; what is none has the row behind theirs.
fn row_of(k: u8) -> u32
    ensures { IsRow (row_of k) result }
{
    match k {
        kinds::BECOMES => CODES[0],
        kinds::PLUS => CODES[1],
        kinds::MINUS => CODES[2],
        kinds::TIMES => CODES[3],
        kinds::ADD_LOGICAL => CODES[4],
        kinds::SUBTRACT_LOGICAL => CODES[5],
        kinds::AND => CODES[6],
        kinds::OR => CODES[7],
        kinds::XOR => CODES[8],
        _ => CODES[9],
    }
}

// By the kind of the condition; an element at a known place is a constant of the program.
fn false_mask(k: u8) -> u64
    ensures { (result ≡ false_mask k) × (result < 256) }
{
    match k {
        kinds::EQUAL => FALSE_MASKS[0],
        kinds::UNEQUAL => FALSE_MASKS[1],
        kinds::LESS => FALSE_MASKS[2],
        kinds::AT_MOST => FALSE_MASKS[3],
        kinds::AT_LEAST => FALSE_MASKS[4],
        kinds::MORE => FALSE_MASKS[5],
        kinds::OVERFLOW => FALSE_MASKS[6],
        _ => 0,
    }
}

// "Shifts 89, 88, 8B, 8A for SHLL, SHRL, SHLA, SHRA"; no other operator is one.
fn shift_code(k: u8) -> Option<u64>
    ensures { result ≡ shift_of k }
{
    match k {
        kinds::SHLL => Some(0x89),
        kinds::SHRL => Some(0x88),
        kinds::SHLA => Some(0x8b),
        kinds::SHRA => Some(0x8a),
        _ => None,
    }
}

// "exit branch, mask 2, or 4 if the step is negative".
fn exit_mask(step: u64) -> u64
    ensures { result ≡ exit_mask step }
{
    if 2147483648 <= step {
        return 4;
    }
    2
}

// ── instructions ──

// Of a CASE: "compare with the count as a literal, branch mask 2 to the end; LTR, branch mask 12 to the end; SHLL by 2; `47 Fr` indexed by r".
pub fn head(r: u64, n: u64, at: u64, end: u64) -> [Code; 6]
    ensures { result ≡ list_of (Head r n at end) }
{
    [
        Code::Literal(COMPARE_NUMBER, r, 0, n),
        Code::Four(BRANCH, 2, 0, PROGRAM_BASE, end),
        Code::Two(TEST, r, r),
        Code::Four(BRANCH, 12, 0, PROGRAM_BASE, end),
        Code::Four(SHIFT_LEFT, r, 0, 0, 2),
        Code::Four(BRANCH, ALWAYS, r, PROGRAM_BASE, at),
    ]
}

// By the width of a cell.
fn column_of(width: Width) -> usize
    ensures { (result ≡ column_of width) × (result < 4) }
{
    match width {
        Width::Full => 1,
        Width::Short => 2,
        Width::Byte | Width::Character => 3,
    }
}

// The instruction of a row of the code table at register r; none for an operand that there is not.
fn apply(row: u32, r: u64, u: Use) -> Option<Code>
    ensures { (k : ℕ) → IsRow k row → result ≡ apply_code k r u }
{
    match u {
        Use::Absent => None,
        Use::Held(s) => Some(Code::Two(opcode(row, 0), r, s)),
        Use::Number(v) => Some(Code::Literal(opcode(row, 1), r, 0, v)),
        Use::Stored(width, x, b, d) => {
            Some(Code::Four(opcode(row, column_of(width)), r, x, b, d))
        }
    }
}

fn applied(row: u32, r: u64, u: Use) -> Codes
    ensures { (k : ℕ) → IsRow k row → result ≡ apply_codes k r u }
{
    match apply(row, r, u) {
        None => Codes::None,
        Some(first) => Codes::One(first),
    }
}

// And another behind it.
fn apply_then(row: u32, r: u64, u: Use, c: Code) -> Codes
    ensures { (k : ℕ) → IsRow k row → result ≡ apply_then k r u c }
{
    match apply(row, r, u) {
        None => Codes::One(c),
        Some(first) => Codes::Both(first, c),
    }
}

// "ABS 10, NEG 13, NEG ABS 11"
fn sign_code(sign: Sign) -> u64
    ensures { result ≡ sign_code sign }
{
    match sign {
        Sign::Abs => 0x10,
        Sign::Neg => 0x13,
        Sign::NegAbs => 0x11,
    }
}

fn signed(op: u64, r: u64, u: Use) -> Codes
    ensures { result ≡ signed_codes op r u }
{
    match u {
        Use::Absent => Codes::None,
        Use::Held(s) => Codes::One(Code::Two(op, r, s)),
        Use::Number(v) => apply_then(LOAD, r, Use::Number(v), Code::Two(op, r, r)),
        Use::Stored(width, x, b, d) => apply_then(
            LOAD,
            r,
            Use::Stored(width, x, b, d),
            Code::Two(op, r, r),
        ),
    }
}

fn load(sign: Option<Sign>, r: u64, u: Use) -> Codes
    ensures { result ≡ load_codes sign r u }
{
    match sign {
        None => applied(LOAD, r, u),
        Some(g) => signed(sign_code(g), r, u),
    }
}

// The register that an operand is; 0 where it is none.
// Kept: 0, here and in `amount`, as the definitions `held_in` and `amount_in` have it: the field of an instruction that takes no register is 0.
pub fn held(u: Use) -> u64
    ensures { result ≡ held_in u }
{
    match u {
        Use::Absent => 0,
        Use::Held(r) => r,
        Use::Number(_) => 0,
        Use::Stored(_, _, _, _) => 0,
    }
}

fn amount(u: Use) -> u64
    ensures { result ≡ amount_in u }
{
    match u {
        Use::Absent => 0,
        Use::Held(_) => 0,
        Use::Number(v) => v,
        Use::Stored(_, _, _, _) => 0,
    }
}

fn is_long(u: Use) -> bool
    ensures { result ≡ is_long_use u }
{
    match u {
        Use::Absent => false,
        Use::Held(_) => true,
        Use::Number(_) => true,
        Use::Stored(width, _, _, _) => width == Width::Full,
    }
}

fn product_register(r: u64, u: Use) -> u64
    ensures { result ≡ product_register r u }
{
    if is_long(u) {
        return r.saturating_sub(1);
    }
    r
}

fn term(k: u8, r: u64, u: Use) -> Codes
    ensures { result ≡ term_codes k r u }
{
    if let Some(op) = shift_code(k) {
        return Codes::One(Code::Four(op, r, 0, held(u), amount(u)));
    }
    if k == kinds::TIMES {
        return applied(TIMES, product_register(r, u), u);
    }
    applied(row_of(k), r, u)
}

fn first(aim: Use, sign: Option<Sign>, u: Use) -> Codes
    ensures { result ≡ first_codes aim sign u }
{
    match aim {
        Use::Absent => Codes::None,
        Use::Held(r) => load(sign, r, u),
        Use::Number(_) => Codes::None,
        Use::Stored(width, x, b, d) => applied(STORE, held(u), Use::Stored(width, x, b, d)),
    }
}

fn next(aim: Use, k: u8, u: Use) -> Codes
    ensures { result ≡ next_codes aim k u }
{
    match aim {
        Use::Absent => Codes::None,
        Use::Held(r) => term(k, r, u),
        Use::Number(_) => Codes::None,
        Use::Stored(_, _, _, _) => Codes::None,
    }
}

// ── uses of functions ──

// The opcodes that take a number: MVI and CLI.
fn is_immediate(op: u64) -> bool
    ensures { result ≡ is_immediate op }
{
    128 <= op
}

// A half of an instruction's second byte: the number's where the opcode takes one, else the register or the index.
fn half(op: u64, nibble: u64, field: u64) -> u64
    ensures { result ≡ half_of op nibble field }
{
    if is_immediate(op) {
        return nibble;
    }
    field
}

// With the last argument, by the register r or the number v before it.
fn function_codes(op: u64, r: u64, v: u64, u: Use) -> Codes
    ensures { result ≡ function_codes op r v u }
{
    match u {
        Use::Absent => Codes::None,
        Use::Held(s) => Codes::One(Code::Two(op, r, s)),
        Use::Number(n) => Codes::One(Code::Literal(
            op,
            half(op, v / 16, r),
            half(op, v % 16, 0),
            n,
        )),
        Use::Stored(_, x, b, d) => Codes::One(Code::Four(
            op,
            half(op, v / 16, r),
            half(op, v % 16, x),
            b,
            d,
        )),
    }
}

// ── sizes ──

pub fn code_size(c: Code) -> usize
    ensures { (result ≡ code_size c) × (result ≤ 4) }
{
    match c {
        Code::Two(_, _, _) => 2,
        Code::Four(_, _, _, _, _) => 4,
        Code::Literal(_, _, _, _) => 4,
    }
}

// Of the six instructions of a CASE, one of which has two bytes.
const HEAD_SIZE: usize = 22;

// Of all instructions of an event.
pub fn size(m: Codes) -> usize
    ensures { (result ≡ code_sizes (list_of m)) × (result ≤ 24) }
{
    match m {
        Codes::None => 0,
        Codes::One(c) => code_size(c),
        Codes::Both(c, d) => code_size(c) + code_size(d),
        Codes::Head(_, _, _, _) => HEAD_SIZE,
    }
}

// ── what is known of a token ──

impl Book<'_> {
    fn kind(self, t: usize) -> u8
        ensures { result ≡ get_or self.entry.kinds.now t 0 }
    {
        kind(self.kinds, t)
    }

    // A number's value.
    fn value(self, t: usize) -> u64
        ensures { result ≡ get_or (wide_in self.entry).values t 0 }
    {
        value(self.wide, t)
    }

    // What the name at token t means, packed.
    fn meaning(self, t: usize) -> u64
        ensures { result ≡ packed_at (thin_in self.entry).found (wide_in self.entry).means t }
    {
        meaning(self.wide, self.thin, t)
    }

    // The register that the name at token t means.
    fn register(self, t: usize) -> u64
        ensures { result ≡ register_in (packed_at (thin_in self.entry).found (wide_in self.entry).means t) }
    {
        register(self.meaning(t))
    }

    // Where a branch goes, by token: the column of what procedures write is done, and lent again.
    fn mark(self, t: usize) -> usize
        ensures { (result ≡ get_or (thin_in self.entry).written t 0) × (result < thin_limit) }
    {
        written(self.thin, t)
    }
}

// ── operands ──

fn subscript(book: Book, shape: u32, t: usize) -> u64
    requires { t < TOKEN-LIMIT }
    ensures { result ≡ subscript_in (wide_in book.entry).values shape t }
{
    if shape % 2 == 1 {
        return book.value(t + 2);
    }
    0
}

fn index(book: Book, shape: u32, t: usize) -> u64
    requires { t < TOKEN-LIMIT }
    ensures { result ≡ index_in (thin_in book.entry).found (wide_in book.entry).means shape t }
{
    if shape == tape::INDEXED {
        return book.register(t + 2);
    }
    if shape == tape::SUBSCRIPTED_INDEXED {
        return book.register(t + 5);
    }
    0
}

fn element(book: Book, d: usize, m: u64, subscript: u64, index: u64) -> Use
    ensures { result ≡ element_in (wide_in book.entry).under (wide_in book.entry).offsets d m subscript index }
{
    let displacement = offset(book.wide, d) % 4294967296 + subscript % 4294967296;
    Use::Stored(
        tables::width_of(m),
        index,
        under(book.wide, d) / 4294967296,
        displacement,
    )
}

// What is declared at token d, by its packed meaning m.
fn place_by(book: Book, d: usize, m: u64, subscript: u64, index: u64) -> Use
    ensures { result ≡ place_by (wide_in book.entry).under (wide_in book.entry).offsets d m subscript index }
{
    if is_register(m) {
        return Use::Held(number(m));
    }
    if is_cell(m) {
        return element(book, d, m, subscript, index);
    }
    Use::Absent
}

fn place(book: Book, shape: u32, t: usize) -> Use
    requires { t < TOKEN-LIMIT }
    ensures { result ≡ place_in (wide_in book.entry).values (thin_in book.entry).found (wide_in book.entry).means
        (wide_in book.entry).under (wide_in book.entry).offsets shape t }
{
    let s = subscript(book, shape, t);
    let x = index(book, shape, t);
    place_by(book, found(book.thin, t), book.meaning(t), s, x)
}

// The operand or designator at token t, by its shape.
pub fn operand(book: Book, shape: u32, t: usize) -> Use
    requires { t < TOKEN-LIMIT }
    ensures { result ≡ use_in (wide_in book.entry).values (thin_in book.entry).found (wide_in book.entry).means
        (wide_in book.entry).under (wide_in book.entry).offsets shape t }
{
    if shape == tape::NUMBER {
        return Use::Number(book.value(t));
    }
    place(book, shape, t)
}

// ── what an event names ──

fn return_register(m: u64) -> u64
    ensures { result ≡ return_in m }
{
    if is_routine(m) {
        return number(m);
    }
    0
}

pub fn register_at(book: Book, family: u32, t: usize) -> u64
    requires { t < TOKEN-LIMIT }
    ensures { result ≡ register_at (thin_in book.entry).found (wide_in book.entry).means family t }
{
    if family == tape::END_PROCEDURE {
        return book.register(t + 2);
    }
    if family == tape::COMPARED {
        return book.register(less(t, 2));
    }
    if family == tape::CALL {
        return return_register(book.meaning(t));
    }
    book.register(t)
}

pub fn goal_at(book: Book, family: u32, t: usize) -> usize
    ensures { (result ≡ goal_at (thin_in book.entry).found (thin_in book.entry).goes (thin_in book.entry).opens family t) × (result < thin_limit) }
{
    if family == tape::BASE {
        return opens(book.thin, t);
    }
    if family == tape::CALL {
        return found(book.thin, t);
    }
    goes(book.thin, t)
}

// ── the assignment or use that is written ──

fn no_writing() -> Writing
    ensures { result ≡ no_writing }
{
    Writing {
        aim: Use::Absent,
        sign: None,
        arguments: 0,
    }
}

// No function takes three.
fn more(n: u32) -> u32
    ensures { result ≡ more_of n }
{
    if n < 3 {
        return n + 1;
    }
    n
}

// The sign that an event is.
fn sign_at(family: u32) -> Option<Sign>
    ensures { result ≡ sign_at family }
{
    match family {
        tape::ABS => Some(Sign::Abs),
        tape::NEG => Some(Sign::Neg),
        tape::NEG_ABS => Some(Sign::NegAbs),
        _ => None,
    }
}

// After an event with the operand u and the register r.
pub fn written_after(family: u32, t: usize, w: Writing, u: Use, r: u64) -> Writing
    requires { t < TOKEN-LIMIT }
    ensures { result ≡ written_after family t w u r }
{
    if family == tape::TARGET {
        return Writing {
            aim: u,
            sign: None,
            arguments: 0,
        };
    }
    if family == tape::CONTROL {
        return Writing {
            aim: Use::Held(r),
            sign: None,
            arguments: 0,
        };
    }
    if (family == tape::ABS) | ((family == tape::NEG) | (family == tape::NEG_ABS)) {
        return Writing {
            sign: sign_at(family),
            ..w
        };
    }
    if family == tape::ARGUED {
        return Writing {
            aim: u,
            sign: None,
            arguments: more(w.arguments),
        };
    }
    if (family == tape::APPLIED) | ((family == tape::COUNTED) | (family == tape::CHOSEN)) {
        return no_writing();
    }
    if family == tape::LISTED {
        return Writing {
            aim: Use::Absent,
            sign: None,
            arguments: t as u32,
        };
    }
    w
}

// ── the instructions of an event ──

fn branch(mask: u64, to: usize) -> Code
    ensures { result ≡ branch_code mask to }
{
    Code::Four(BRANCH, mask, 0, PROGRAM_BASE, to as u64)
}

fn link(r: u64, to: usize) -> Code
    ensures { result ≡ link_code r to }
{
    Code::Four(LINK, r, 0, PROGRAM_BASE, to as u64)
}

fn base(r: u64, k: usize) -> Code
    requires { k < thin_limit }
    ensures { result ≡ base_code r k }
{
    Code::Four(opcode(LOAD, 1), r, 0, DATA_BASE, 4 * k as u64)
}

// The last instruction of a program.
pub fn stop() -> Code
    ensures { result ≡ stop_code }
{
    Code::Two(STOP, 0, 0)
}

// "IF and WHILE branch on false": a register and the operand u are compared.
fn compared(book: Book, r: u64, t: usize, u: Use) -> Codes
    ensures { result ≡ compared_codes book.entry.kinds.now (thin_in book.entry).written r t u }
{
    let mask = false_mask(book.kind(less(t, 1)));
    apply_then(COMPARE, r, u, branch(mask, book.mark(less(t, 3))))
}

fn bare(book: Book, t: usize) -> Codes
    ensures { result ≡ bare_codes book.entry.kinds.now (thin_in book.entry).written t }
{
    let mask = false_mask(book.kind(t));
    Codes::One(branch(mask, book.mark(less(t, 1))))
}

// "compare with limit; exit branch": the control register and the operand u.
fn limit(book: Book, aim: Use, t: usize, u: Use) -> Codes
    ensures { result ≡ limit_codes (wide_in book.entry).values (thin_in book.entry).written aim t u }
{
    let mask = exit_mask(book.value(less(t, 2)));
    apply_then(COMPARE, held(aim), u, branch(mask, book.mark(less(t, 3))))
}

// "5A of the step; branch to the compare".
fn step(book: Book, t: usize) -> Codes
    requires { t < TOKEN-LIMIT }
    ensures { result ≡ step_codes (wide_in book.entry).values (thin_in book.entry).written t }
{
    let r = book.mark(t + 1) as u64;
    apply_then(
        ADD,
        r,
        Use::Number(book.value(t)),
        branch(ALWAYS, book.mark(t)),
    )
}

// By the first of two arguments, if it is one token: its parenthesis closes behind it.
fn second(book: Book, t: usize, op: u64, u: Use) -> Codes
    requires { t < TOKEN-LIMIT }
    ensures { result ≡ second_codes book.entry.kinds.now (wide_in book.entry).values (thin_in book.entry).found (wide_in book.entry).means t op u }
{
    if book.kind(t + 3) != kinds::CLOSE {
        return Codes::None;
    }
    if book.kind(t + 2) == kinds::NUMBER {
        return function_codes(op, 0, book.value(t + 2), u);
    }
    function_codes(op, book.register(t + 2), 0, u)
}

// The use of a function, by its last argument and how many there are.
fn used(book: Book, t: usize, f: Function, w: Writing) -> Codes
    requires { t < TOKEN-LIMIT }
    ensures { (g : F.Function) → f ≡ coded g
        → result ≡ used_codes book.entry.kinds.now (wide_in book.entry).values (thin_in book.entry).found (wide_in book.entry).means t g w }
{
    let op = f.op as u64;
    let last = w.aim;
    let count = w.arguments;
    if count != f.arity as u32 {
        return Codes::None;
    }
    if count == 1 {
        return function_codes(op, 0, f.number as u64, last);
    }
    second(book, t, op, last)
}

// The instructions of a CASE but its table, which stands before the first statement: "at four bytes before the branch table".
fn chosen(book: Book, r: u64, t: usize, w: Writing) -> Codes
    requires { t < TOKEN-LIMIT }
    ensures { result ≡ chosen_codes (thin_in book.entry).written r t w }
{
    let n = w.arguments as usize;
    let at = less(book.mark(t), 4 * n + 4);
    let end = book.mark(t + 1);
    Codes::Head(r, n as u64, at as u64, end as u64)
}

// How many bytes the table of a CASE has.
pub fn table_size(op: u32, w: Writing) -> usize
    ensures { (result ≡ table_bytes (family_at op) w) × (result ≤ 17179869180) }
{
    if tape::family(op) == tape::CHOSEN {
        return 4 * w.arguments as usize;
    }
    0
}

// Declarations, ends of statements, calls and GOTOs.
fn others(book: Book, family: u32, t: usize, n: Named) -> Codes
    requires { (t < TOKEN-LIMIT) × (n.goal < thin_limit) }
    ensures { result ≡ other_codes (thin_in book.entry).written family t n }
{
    let r = n.register;
    let goal = n.goal;
    if family == tape::BASE {
        return Codes::One(base(r, goal));
    }
    if family == tape::END_PROCEDURE {
        return Codes::One(Code::Two(RETURN, ALWAYS, r));
    }
    if family == tape::CALL {
        return Codes::One(link(r, book.mark(goal)));
    }
    if family == tape::GOTO {
        return Codes::One(branch(ALWAYS, book.mark(goal)));
    }
    let opens = (family == tape::PROCEDURE) | (family == tape::ELSE);
    if opens | ((family == tape::END_WHILE) | (family == tape::END_CHOICE)) {
        return Codes::One(branch(ALWAYS, book.mark(t + 1)));
    }
    Codes::None
}

// The instructions of an event, by its operand u and what it names.
pub fn codes_of(book: Book, family: u32, t: usize, w: Writing, u: Use, n: Named) -> Codes
    requires { (t < TOKEN-LIMIT) × (n.goal < thin_limit) }
    ensures { result ≡ codes_of book.entry.kinds.now (wide_in book.entry).values (thin_in book.entry).found (wide_in book.entry).means
        (thin_in book.entry).written family t w u n }
{
    let aim = w.aim;
    if family == tape::FIRST {
        return first(aim, w.sign, u);
    }
    if family == tape::TERM {
        return next(aim, book.kind(less(t, 1)), u);
    }
    if family == tape::COMPARED {
        return compared(book, n.register, t, u);
    }
    if family == tape::LIMIT {
        return limit(book, aim, t, u);
    }
    if family == tape::BARE {
        return bare(book, t);
    }
    if family == tape::END_FOR {
        return step(book, t);
    }
    if family == tape::COUNTED {
        return used(book, t, functions::meant(book.meaning(t)), w);
    }
    if family == tape::CHOSEN {
        return chosen(book, n.register, t, w);
    }
    others(book, family, t, n)
}

// What an event makes, by its number and its token.
pub fn event(book: Book, op: u32, t: usize, w: Writing) -> Emitted
    requires { t < TOKEN-LIMIT }
    ensures { result ≡ emitted_in book.entry.kinds.now (wide_in book.entry) (thin_in book.entry) op t w }
{
    let family = tape::family(op);
    let u = operand(book, tape::form(op), t);
    let register = register_at(book, family, t);
    let goal = goal_at(book, family, t);
    let codes = codes_of(book, family, t, w, u, Named { register, goal });
    let writing = written_after(family, t, w, u, register);
    Emitted { codes, writing }
}

// Past an event that stands at address p.
pub fn passed(book: Book, op: u32, t: usize, p: usize, w: Writing) -> Past
    requires { (t < TOKEN-LIMIT) × (p < code_limit) }
    ensures { (result ≡ past_in book.entry.kinds.now (wide_in book.entry) (thin_in book.entry) op t p w) × (result.at ≤ p + most_bytes) }
{
    let made = event(book, op, t, w);
    let codes = made.codes;
    let at = p + (size(codes) + table_size(op, w));
    let writing = made.writing;
    Past { at, writing }
}
