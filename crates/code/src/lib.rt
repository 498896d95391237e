// Document 01, "Code": where branches go, then the program's bytes and the literals that it needs, each in one loop along the tape.
#![tactic(auto)]

ghost use Rattle.std.specs.Prelude.{◌≡◌, ℕ, ◌+◌, ◌-◌, ◌*◌, ◌/◌, ◌%◌, ◌≤◌, ◌<◌, List, map, length, get_or, take, drop, set};
ghost use Rattle.tape.specs.Events.{EVENTS, TOKEN-LIMIT};
ghost use Rattle.std.proofs.lemmas.List.Edits.{sets};
ghost use Rattle.base.specs.Runs.{index_of};
ghost use Rattle.translation.specs.Instructions.{literal};
ghost use Rattle.translation.specs.Layout.{needs};
ghost use Rattle.translation.specs.Bytes.{two_bytes, four_bytes};
ghost use Rattle.emit.specs.Books.{wide_in, thin_in};
ghost use Rattle.emit.specs.Codes.{list_of, code_size};
ghost use Rattle.translation.specs.Instructions.{always};
ghost use Rattle.emit.specs.Codes.{branch_code};
ghost use Rattle.emit.specs.Along.{depth_after, ends_here, entry_of, start_after};
ghost use Rattle.ledger.specs.Book.{wide_of, thin_of, put_in, thin_limit};
ghost use Rattle.code.specs.Places.{mark_limit, mark_closing, mark_after, on_marks, places_in};
ghost use Rattle.code.specs.Coding.{bytes_in, Laid, laid_of, laid_by, lay_code, lay_all, code_in, table_in, code_limit, Holds};

use arrays::put_wide;
use base::less;
use emit::{
    ALWAYS, BRANCH, Book, Code, Codes, DATA_BASE, PROGRAM_BASE, Use, Writing, code_size, head,
    held, passed, stop,
};
use ledger::{THIN_LIMIT, put_written, written};

// ── addresses ──

fn put_mark(thin: &mut [u16], t: usize, v: usize)
    requires { v < thin_limit }
    ensures { thin_of thin.new ≡ on_marks (put_in t v) (thin_of thin.old) }
{
    put_written(thin, t, v);
}

fn mark_limit(t: usize, from: usize, aim: Use, thin: &mut [u16])
    requires { from < thin_limit }
    ensures { thin_of thin.new ≡ on_marks (mark_limit t from aim) (thin_of thin.old) }
{
    put_mark(thin, less(t, 2), from);
    put_mark(thin, less(t, 1), held(aim) as usize % THIN_LIMIT);
}

fn mark_closing(family: u32, t: usize, to: usize, thin: &mut [u16])
    requires { (t < TOKEN-LIMIT) × (to < thin_limit) }
    ensures { thin_of thin.new ≡ on_marks (mark_closing family t to) (thin_of thin.old) }
{
    if family == tape::END_FOR {
        put_mark(thin, less(t, 1), to);
        return;
    }
    if (family == tape::END_PROCEDURE) | ((family == tape::END_ELSE) | (family == tape::END_CASE)) {
        put_mark(thin, t + 1, to);
        return;
    }
    let opens = (family == tape::PROCEDURE) | (family == tape::ELSE);
    if opens
        | ((family == tape::END_IF) | ((family == tape::END_WHILE) | (family == tape::CHOSEN)))
    {
        put_mark(thin, t, to);
    }
}

fn mark_after(family: u32, t: usize, from: usize, to: usize, aim: Use, thin: &mut [u16])
    requires { (t < TOKEN-LIMIT) × (from < thin_limit) × (to < thin_limit) }
    ensures { thin_of thin.new ≡ on_marks (mark_after family t from to aim) (thin_of thin.old) }
{
    if family == tape::LABEL {
        put_mark(thin, t, from);
        return;
    }
    if family == tape::LIMIT {
        mark_limit(t, from, aim, thin);
        return;
    }
    if family == tape::WHILE {
        put_mark(thin, t + 1, from);
        return;
    }
    mark_closing(family, t, to, thin);
}

// Where branches go, by token; the length of the program but for its last instruction.
pub fn places(tape: &[u32], kinds: &[u8], wide: &[u64], thin: &mut [u16]) -> usize
    requires { length tape.now ≤ 2 * TOKEN-LIMIT }
    ensures { (result ≡ (places_in kinds.now (wide_of wide.now) (thin_of thin.old) tape.now).at)
        × (thin_of thin.new ≡ on_marks (λ marks. (places_in kinds.now (wide_of wide.now) (thin_of thin.old)
        tape.now).marks) (thin_of thin.old)) }
{
    let mut p: usize = 0;
    let mut w = Writing {
        aim: Use::Absent,
        sign: None,
        arguments: 0,
    };
    for e in tape {
        let op = tape::op(*e);
        let t = tape::token(*e);
        let behind = passed(Book { kinds, wide, thin }, op, t, p, w);
        let q = behind.at;
        let aim = w.aim;
        mark_after(
            tape::family(op),
            t,
            p % THIN_LIMIT,
            q % THIN_LIMIT,
            aim,
            thin,
        );
        let next = behind.writing;
        w = next;
        p = q;
    }
    p
}

// ── bytes ──

fn put_byte(image: &mut [u8], i: usize, v: u64)
    ensures { image.new ≡ set image.old i (v % 256) }
{
    if i < image.len() {
        image[i] = (v % 256) as u8;
    }
}

// "Two bytes: opcode, r·16+s."
fn lay_two(image: &mut [u8], at: usize, op: u64, r: u64, s: u64)
    requires { at < code_limit }
    ensures { image.new ≡ sets image.old at (bytes_in (two_bytes op r s)) }
{
    put_byte(image, at, op);
    put_byte(image, at + 1, r % 256 * 16 + s % 256);
}

// "Four bytes: opcode, r·16+index, base·16 + displacement/256, displacement mod 256."
fn lay_four(image: &mut [u8], at: usize, op: u64, r: u64, x: u64, b: u64, d: u64)
    requires { at < code_limit }
    ensures { image.new ≡ sets image.old at (bytes_in (four_bytes op r x b d)) }
{
    put_byte(image, at, op);
    put_byte(image, at + 1, r % 256 * 16 + x % 256);
    put_byte(image, at + 2, b % 256 * 16 + d / 256);
    put_byte(image, at + 3, d % 256);
}

// ── literals ──

// The place of a value among the first literals; their number where it is not among them.
fn find(literals: &[u64], count: usize, v: u64) -> usize
    requires { count ≤ length literals.now }
    ensures { (result ≡ index_of v (take count literals.now)) × (result ≤ count) }
{
    literals[..count]
        .iter()
        .position(|x| *x == v)
        .unwrap_or(count)
}

// A literal that was found, or is entered as the last of them.
fn enter(literals: &mut [u64], count: usize, place: usize, v: u64) -> usize
    requires { (count < length literals.old) × (place ≡ index_of v (take count literals.old)) × (place ≤ count) }
    ensures { (take result literals.new ≡ needs (literal v) (take count literals.old)) × (place ≡ index_of v (take result literals.new)) × (result ≤ count + 1) }
{
    if place == count {
        put_wide(literals, count, v);
        return count + 1;
    }
    count
}

// The same, as long as there is room.
fn enter_in_room(literals: &mut [u64], count: usize, place: usize, v: u64) -> usize
    requires { (count ≤ length literals.old) × (place ≡ index_of v (take count literals.old)) × (place ≤ count) }
    ensures { (count < length literals.old → (take result literals.new ≡ needs (literal v) (take count literals.old))
        × (place ≡ index_of v (take result literals.new))) × (count ≡ length literals.old → result ≡ count) × (result ≤ count + 1) }
{
    if count < literals.len() {
        return enter(literals, count, place, v);
    }
    count
}

// Lays an instruction at p behind n literals; the number of literals then.
fn lay_code(
    image: &mut [u8],
    literals: &mut [u64],
    start: u64,
    p: usize,
    n: usize,
    c: Code,
) -> usize
    requires { (n ≤ length literals.old) × (length literals.old ≤ 4294967296) × (start < 1099511627776) × (p < code_limit) }
    ensures { (n < length literals.old → laid_by (p + code_size c) result image.new literals.new ≡ lay_code start c
        (laid_by p n image.old literals.old)) × (n ≡ length literals.old → result ≡ n) × (result ≤ n + 1) }
{
    match c {
        Code::Two(op, r, s) => {
            lay_two(image, p, op, r, s);
            n
        }
        Code::Four(op, r, x, b, d) => {
            lay_four(image, p, op, r, x, b, d);
            n
        }
        Code::Literal(op, r, x, v) => {
            let place = find(literals, n, v);
            lay_four(image, p, op, r, x, DATA_BASE, start + 4 * place as u64);
            enter_in_room(literals, n, place, v)
        }
    }
}

// How far a program goes, and how many literals it has, up to the room for them.
#[derive(Clone, Copy)]
pub struct Reached {
    pub length: usize,
    pub literals: usize,
}

// Lays instructions, one behind the other.
fn lay_each(
    image: &mut [u8],
    literals: &mut [u64],
    start: u64,
    from: Reached,
    codes: &[Code],
) -> Reached
    requires { (from.literals ≤ length literals.old) × (length literals.old ≤ 4294967296) × (start < 1099511627776) × (from.length + 4 * length codes.now < code_limit) }
    ensures { ((s : Laid) → Holds (length literals.old) from.length from.literals image.old literals.old s
        → Holds (length literals.old) result.length result.literals image.new literals.new (lay_all start codes.now s))
        × (result.literals ≤ from.literals + length codes.now) × (result.literals ≤ length literals.old) × (result.length ≤ from.length + 4 * length codes.now) }
{
    let mut p: usize = from.length;
    let mut n: usize = from.literals;
    for c in codes {
        n = lay_code(image, literals, start, p, n, *c);
        p += code_size(*c);
    }
    Reached {
        length: p,
        literals: n,
    }
}

// Lays the instructions of an event.
fn lay_codes(image: &mut [u8], literals: &mut [u64], start: u64, from: Reached, m: Codes) -> Reached
    requires { (from.literals ≤ length literals.old) × (length literals.old ≤ 4294967296) × (start < 1099511627776) × (from.length + 24 < code_limit) }
    ensures { ((s : Laid) → Holds (length literals.old) from.length from.literals image.old literals.old s
        → Holds (length literals.old) result.length result.literals image.new literals.new (lay_all start (list_of m) s))
        × (result.literals ≤ from.literals + 6) × (result.literals ≤ length literals.old) × (result.length ≤ from.length + 24) }
{
    match m {
        Codes::None => from,
        Codes::One(c) => lay_each(image, literals, start, from, &[c]),
        Codes::Both(c, d) => lay_each(image, literals, start, from, &[c, d]),
        Codes::Head(r, n, at, end) => {
            lay_each(image, literals, start, from, &head(r, n, at, end))
        }
    }
}

// Inside how many CASEs it is after an event.
fn depth_after(family: u32, depth: usize) -> usize
    requires { depth < TOKEN-LIMIT * 4 }
    ensures { (result ≡ depth_after family depth) × (result ≤ depth + 1) }
{
    if family == tape::CHOSEN {
        return depth + 1;
    }
    if family == tape::END_CASE {
        return less(depth, 1);
    }
    depth
}

// One of the statements of the CASE ends.
fn ends_here(family: u32, depth: usize) -> bool
    ensures { result ≡ ends_here family depth }
{
    (family == tape::END_CHOICE) & (depth == 1)
}

// Where the statement at hand starts, after an event behind which is the address to.
fn start_after(family: u32, depth: usize, from: usize, to: usize) -> usize
    ensures { result ≡ start_after family depth from to }
{
    if ends_here(family, depth) {
        return to;
    }
    from
}

// The table's branch to a statement that ends: "one always-branch each".
fn lay_entry(image: &mut [u8], at: usize, family: u32, depth: usize, from: usize) -> usize
    requires { at + 4 < code_limit }
    ensures { ((start : ℕ) (literals : List ℕ) → laid_of result image.new literals ≡ lay_all start (map (branch_code always) (entry_of family depth from))
        (laid_of at image.old literals)) × (result ≤ at + 4) }
{
    if ends_here(family, depth) {
        lay_four(image, at, BRANCH, ALWAYS, 0, PROGRAM_BASE, from as u64);
        return at + 4;
    }
    at
}

// Behind the head of a CASE, the event e, its table: "one always-branch each", to where its statements start, which are passed for it along the rest of the tape.
// Where the table ends.
fn lay_table(e: u32, rest: &[u32], book: Book, w: Writing, image: &mut [u8], at: usize) -> usize
    requires { (length rest.now < 2 * TOKEN-LIMIT) × (at + 4 * length rest.now < code_limit) }
    ensures { ((start : ℕ) (literals : List ℕ) → laid_of result image.new literals ≡ lay_all start
        (table_in book.entry.kinds.now (wide_in book.entry) (thin_in book.entry) (e % EVENTS) (e / EVENTS) w rest.now) (laid_of at image.old literals))
        × (result ≤ at + 4 * length rest.now) }
{
    if tape::family(tape::op(e)) != tape::CHOSEN {
        return at;
    }
    let mut from = written(book.thin, tape::token(e));
    let mut p = from;
    let mut depth: usize = 1;
    let mut v = w;
    let mut end = at;
    for x in rest {
        if depth == 0 {
            return end;
        }
        let op = tape::op(*x);
        let family = tape::family(op);
        let behind = passed(book, op, tape::token(*x), p, v);
        let q = behind.at;
        end = lay_entry(image, end, family, depth, from);
        from = start_after(family, depth, from, q);
        depth = depth_after(family, depth);
        let next = behind.writing;
        v = next;
        p = q;
    }
    end
}

// The program's bytes in its image, and the literals that it needs.
pub fn write_code(
    tape: &[u32],
    book: Book,
    start: u64,
    image: &mut [u8],
    literals: &mut [u64],
) -> Reached
    requires { (length tape.now ≤ 2 * TOKEN-LIMIT) × (length literals.old ≤ 4294967296) × (start < 1099511627776) }
    ensures { Holds (length literals.old) result.length result.literals image.new literals.new
        (code_in start book.entry.kinds.now (wide_in book.entry) (thin_in book.entry) image.old tape.now)
        × (result.literals ≤ 6 * length tape.now + 1) }
{
    let mut at = Reached {
        length: 0,
        literals: 0,
    };
    let mut w = Writing {
        aim: Use::Absent,
        sign: None,
        arguments: 0,
    };
    for (i, e) in tape.iter().enumerate() {
        let op = tape::op(*e);
        let t = tape::token(*e);
        let made = emit::event(book, op, t, w);
        let codes = made.codes;
        let from = lay_codes(image, literals, start, at, codes);
        let next = made.writing;
        let length = lay_table(*e, &tape[i + 1..], book, next, image, from.length);
        at = Reached {
            length,
            literals: from.literals,
        };
        w = next;
    }
    let p = at.length;
    let n = lay_code(image, literals, start, p, at.literals, stop());
    let end = p + 2;
    Reached {
        length: end,
        literals: n,
    }
}
