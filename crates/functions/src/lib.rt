// Document 02, 1/13: the table of the standard functions, a function known by its place in it.
#![tactic(auto)]

ghost use Rattle.std.specs.Prelude.{◌≡◌};
ghost use Rattle.static_rules.specs.Functions.{function_at, argument_at, is_written};
ghost use Rattle.functions.specs.Arguments.{argument_by, coded, function_in};

use tables::is_function;

// What stands in a parenthesis: a register that is written, one that is read, a number 0 to 255, a cell that may be indexed, one that may not; or more than is taken.
#[derive(Clone, Copy, PartialEq, Eq)]
pub enum Argument {
    WrittenRegister,
    ReadRegister,
    ByteNumber,
    IndexedCell,
    PlainCell,
    Surplus,
}

// What it takes in its first and in its second parenthesis, in how many; its opcode; the number of SET, RESET and TEST.
#[derive(Clone, Copy)]
pub struct Function {
    pub first: Argument,
    pub second: Argument,
    pub arity: u8,
    pub op: u8,
    pub number: u8,
}

impl Function {
    // "IC, LA and LTR write the first".
    pub fn writes_first(self) -> bool
        ensures { result ≡ is_written (argument_by self.first) }
    {
        matches!(self.first, Argument::WrittenRegister)
    }
}

macro_rules! function {
    ($first:ident, $second:ident, $arity:expr, $op:expr, $number:expr) => {
        Function {
            first: Argument::$first,
            second: Argument::$second,
            arity: $arity,
            op: $op,
            number: $number,
        }
    };
}

const TABLE: [Function; 9] = [
    function!(WrittenRegister, IndexedCell, 2, 0x43, 0), // IC
    function!(ReadRegister, IndexedCell, 2, 0x42, 0), // STC
    function!(WrittenRegister, IndexedCell, 2, 0x41, 0), // LA
    function!(ByteNumber, PlainCell, 2, 0x92, 0), // MVI
    function!(ByteNumber, PlainCell, 2, 0x95, 0), // CLI
    function!(PlainCell, Surplus, 1, 0x92, 0xff), // SET
    function!(PlainCell, Surplus, 1, 0x92, 0), // RESET
    function!(PlainCell, Surplus, 1, 0x95, 0xff), // TEST
    function!(WrittenRegister, ReadRegister, 2, 0x12, 0), // LTR
];

// What means no function takes nothing.
const NONE: Function = function!(Surplus, Surplus, 0, 0, 0);

// The function at a place of the table.
fn at_place(k: usize) -> Function
    ensures { result ≡ coded (function_at k) }
{
    if k < TABLE.len() { TABLE[k] } else { NONE }
}

// The function that a packed meaning is.
pub fn meant(m: u64) -> Function
    ensures { result ≡ coded (function_in m) }
{
    if is_function(m) {
        return at_place(tables::number(m) as usize);
    }
    NONE
}

// What the function that a packed meaning is takes at a position.
pub fn takes(m: u64, position: usize) -> Argument
    ensures { argument_by result ≡ argument_at (function_in m) position }
{
    let f = meant(m);
    match position {
        0 => f.first,
        1 => f.second,
        _ => Argument::Surplus,
    }
}
