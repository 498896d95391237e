// The events of a tape, as specs/Events.antt numbers them. To those of designators and operands their shape is added.
// Kept: numbers and no enum, since an event and its token share 32 bits of the lent tape, of which `parse::program` and all passes speak as a list of numbers; an
// enum beside its token would take twice the room, 131,180 bytes more of a thread's stack.
#![tactic(auto)]

ghost use Rattle.std.specs.Prelude.{◌≡◌, ◌/◌, ◌%◌, ◌<◌, ◌≤◌};
ghost use Rattle.tape.specs.Events.{EVENTS, TOKEN-LIMIT};
ghost use Rattle.tape.specs.Numbers.{layer_at, form_at, family_at};
ghost use Rattle.tape.specs.Names.{declaring, shape_at};

pub const BLOCK: u32 = 0;

pub const END_BLOCK: u32 = 1;

pub const REGISTER: u32 = 2;

pub const ITEM: u32 = 7;

pub const VALUE: u32 = 8;

pub const BASE: u32 = 9;

pub const PROCEDURE: u32 = 10;

pub const END_PROCEDURE: u32 = 11;

pub const LABEL: u32 = 12;

pub const TARGET: u32 = 13;

pub const CONTROL: u32 = 17;

pub const ABS: u32 = 21;

pub const NEG: u32 = 22;

pub const NEG_ABS: u32 = 23;

pub const FIRST: u32 = 24;

pub const TERM: u32 = 29;

pub const COMPARED: u32 = 34;

pub const LIMIT: u32 = 39;

pub const BARE: u32 = 44;

pub const WHILE: u32 = 45;

pub const END_FOR: u32 = 46;

pub const ELSE: u32 = 47;

pub const END_ELSE: u32 = 48;

pub const END_IF: u32 = 49;

pub const END_WHILE: u32 = 50;

pub const CALL: u32 = 51;

pub const GOTO: u32 = 52;

pub const APPLIED: u32 = 53;

pub const COUNTED: u32 = 54;

pub const ARGUED: u32 = 55;

pub const SINGLE_FULL: u32 = 60;

pub const SINGLE_SHORT: u32 = 61;

pub const SINGLE_BYTE: u32 = 62;

pub const SINGLE_CHARACTER: u32 = 63;

pub const ARRAY_FULL: u32 = 64;

pub const ARRAY_SHORT: u32 = 65;

pub const ARRAY_BYTE: u32 = 66;

pub const ARRAY_CHARACTER: u32 = 67;

pub const LISTED: u32 = 68;

pub const CHOSEN: u32 = 69;

pub const END_CHOICE: u32 = 70;

pub const END_CASE: u32 = 71;

// The width of cells.
pub const FULL: u32 = 0;

pub const SHORT: u32 = 1;

pub const BYTE: u32 = 2;

pub const CHARACTER: u32 = 3;

// The shapes of designators and operands: name, name(number), name(name), name(number)(name), number.
pub const ALONE: u32 = 0;

pub const SUBSCRIPTED: u32 = 1;

pub const INDEXED: u32 = 2;

pub const SUBSCRIPTED_INDEXED: u32 = 3;

pub const NUMBER: u32 = 4;

// How many numbers of events a tape has room for.
pub const EVENTS: u32 = 128;

// The layers of events.
pub const EDGE: u32 = 0;

pub const ROUTE: u32 = 1;

pub const ENTRY: u32 = 2;

pub const PHRASE: u32 = 3;

pub const MARK: u32 = 4;

// What an event is.
pub fn op(event: u32) -> u32
    ensures { (result ≡ event % EVENTS) × (result < EVENTS) }
{
    event % EVENTS
}

// The token that it stands for.
pub fn token(event: u32) -> usize
    ensures { (result ≡ event / EVENTS) × (result < TOKEN-LIMIT) }
{
    (event / EVENTS) as usize
}

// Its layer: an edge, a route, an entry of a declaration, a phrase of a statement, a mark.
pub fn layer(op: u32) -> u32
    ensures { result ≡ layer_at op }
{
    if op < REGISTER {
        return EDGE;
    }
    if op < PROCEDURE {
        return ENTRY;
    }
    if op < LABEL {
        return EDGE;
    }
    if op == LABEL {
        return ROUTE;
    }
    if op < WHILE {
        return PHRASE;
    }
    if op == CALL {
        return PHRASE;
    }
    if op == GOTO {
        return ROUTE;
    }
    if op < APPLIED {
        return MARK;
    }
    if op < SINGLE_FULL {
        return PHRASE;
    }
    if op <= ARRAY_CHARACTER {
        return ENTRY;
    }
    if op == CHOSEN {
        return PHRASE;
    }
    MARK
}

// The width of cells, the shape of a designator or an operand; 0 for all other events.
pub fn form(op: u32) -> u32
    ensures { (result ≡ form_at op) × (result ≤ op) }
{
    if op < TARGET {
        return 0;
    }
    if op < ABS {
        return (op - TARGET) % 4;
    }
    if op < FIRST {
        return 0;
    }
    if op < BARE {
        return (op - FIRST) % 5;
    }
    if op < ARGUED {
        return 0;
    }
    if op < SINGLE_FULL {
        return op - ARGUED;
    }
    if op <= ARRAY_CHARACTER {
        return (op - SINGLE_FULL) % 4;
    }
    0
}

// The event without its form.
pub fn family(op: u32) -> u32
    ensures { result ≡ family_at op }
{
    op - form(op)
}

// Whether it declares the name at its token.
pub fn declares(op: u32) -> bool
    ensures { result ≡ declaring op }
{
    (op == REGISTER) | ((op == ITEM) | (op == PROCEDURE))
}

// The shape of the name at its token; NUMBER where no name stands there or it uses none.
pub fn shape(op: u32) -> u32
    ensures { result ≡ shape_at op }
{
    if op == BASE {
        return ALONE;
    }
    if op == CALL {
        return ALONE;
    }
    if op == APPLIED {
        return ALONE;
    }
    if op == CHOSEN {
        return ALONE;
    }
    if op < TARGET {
        return NUMBER;
    }
    if op < ABS {
        return (op - TARGET) % 4;
    }
    if op < FIRST {
        return NUMBER;
    }
    if op < BARE {
        return (op - FIRST) % 5;
    }
    if op < ARGUED {
        return NUMBER;
    }
    if op < SINGLE_FULL {
        return op - ARGUED;
    }
    NUMBER
}
