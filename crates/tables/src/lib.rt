// What names mean and which registers procedures write, in arrays of numbers by token.
#![tactic(auto)]

ghost use Rattle.std.specs.Prelude.{◌≡◌, ◌+◌, ◌-◌, ◌%◌, ◌≤◌, ◌<◌, ◌↔◌, IsTrue};
ghost use Rattle.static_rules.specs.Meaning.{element_size};
ghost use Rattle.static_rules.specs.Registers.{has as has_of};
ghost use Rattle.tables.specs.Packed.{sort_number, width_number, sort_in, packed as packed_of, number_in, is_register_in, is_routine_in, is_array_in, is_cell_in, is_function_in, width_number_in, is_short_in, is_byte_in, width_in, register_in, long_in, set_of};
ghost use Rattle.tables.specs.Stacks.{stack_of, top as top_of};

use arrays::key;

// What a name means; 0 stands for nothing.
#[derive(Clone, Copy, PartialEq, Eq)]
pub enum Sort {
    Register = 1,
    Routine = 2,
    Cell = 3,
    Array = 4,
    Function = 5,
}

// The width of a cell's elements; of bytes there are two, by the word BYTE or CHARACTER.
#[derive(Clone, Copy, PartialEq, Eq)]
pub enum Width {
    Full,
    Short,
    Byte,
    Character,
}

const SORTS: u64 = 16;

const WIDTHS: u64 = 4;

// A number of 32 bits, what it is a number of, and the width of a cell's elements, by their numbers: there is room for more sorts than `Sort` has.
pub fn packed(sort: u64, width: u64, v: u64) -> u64
    requires { (sort < 16) × (width < 4) }
    ensures { result ≡ packed_of sort width v }
{
    (v % 4294967296 * WIDTHS + width) * SORTS + sort
}

// The same of a sort and a width that there are.
pub fn packed_as(sort: Sort, width: Width, v: u64) -> u64
    ensures { result ≡ packed_of (sort_number sort) (width_number width) v }
{
    packed(sort as u64, width as u64, v)
}

// What a packed meaning is, is this.
fn is(m: u64, sort: Sort) -> bool
    ensures { IsTrue result ↔ sort_in m ≡ sort_number sort }
{
    m % SORTS == sort as u64
}

pub fn number(m: u64) -> u64
    ensures { (result ≡ number_in m) × (result < 4294967296) }
{
    m / SORTS / WIDTHS % 4294967296
}

pub fn is_register(m: u64) -> bool
    ensures { result ≡ is_register_in m }
{
    is(m, Sort::Register)
}

pub fn is_routine(m: u64) -> bool
    ensures { result ≡ is_routine_in m }
{
    is(m, Sort::Routine)
}

pub fn is_array(m: u64) -> bool
    ensures { result ≡ is_array_in m }
{
    is(m, Sort::Array)
}

pub fn is_cell(m: u64) -> bool
    ensures { result ≡ is_cell_in m }
{
    is(m, Sort::Cell) | is(m, Sort::Array)
}

pub fn is_function(m: u64) -> bool
    ensures { result ≡ is_function_in m }
{
    is(m, Sort::Function)
}

// The width with a number.
pub fn width_by(n: u64) -> Width
    ensures { width_number result ≡ n % 4 }
{
    match n % WIDTHS {
        0 => Width::Full,
        1 => Width::Short,
        2 => Width::Byte,
        _ => Width::Character,
    }
}

// The width of a cell's elements.
pub fn width_of(m: u64) -> Width
    ensures { width_number result ≡ width_number_in m }
{
    width_by(m / SORTS)
}

// The elements of a cell are short.
pub fn is_short(m: u64) -> bool
    ensures { result ≡ is_short_in m }
{
    width_of(m) == Width::Short
}

// The elements of a cell are bytes.
pub fn is_byte(m: u64) -> bool
    ensures { result ≡ is_byte_in m }
{
    matches!(width_of(m), Width::Byte | Width::Character)
}

// "(4, or 2 for short)"; "one byte".
pub fn element_size(m: u64) -> u64
    ensures { (result ≡ element_size (width_in m)) × (1 ≤ result) × (result ≤ 4) }
{
    match width_of(m) {
        Width::Full => 4,
        Width::Short => 2,
        Width::Byte | Width::Character => 1,
    }
}

// The register that a packed meaning is, or 0.
// Kept: 0 where it is none, as the definition `register_of` (static_rules/specs/Meaning) has it and the instruction's field.
pub fn register(m: u64) -> u64
    ensures { (result ≡ register_in m) × (result < 4294967296) }
{
    if is_register(m) {
        return number(m);
    }
    0
}

// A register or a cell of full width.
pub fn is_long(m: u64) -> bool
    ensures { result ≡ long_in m }
{
    is_register(m) | (is_cell(m) & (width_of(m) == Width::Full))
}

// ── sets of registers ──

pub fn has(set: usize, r: u64) -> bool
    ensures { result ≡ has_of (set_of set) r }
{
    if r < 16 {
        return (set >> r) % 2 == 1;
    }
    false
}

// ── stacks ──

// The newest of the first d elements, or 0.
// Kept: 0 of an empty stack, as the definition `top` (specs/Stacks) has it.
pub fn top(a: &[u64], d: usize) -> u64
    ensures { result ≡ top_of (stack_of a.now d) }
{
    if d == 0 {
        return 0;
    }
    key(a, d - 1)
}
