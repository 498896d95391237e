// Document 02, 2/13: where a byte of a text stands, by place, line and column.
#![tactic(auto)]

ghost use Rattle.std.specs.Prelude.{◌≡◌, ◌+◌, ◌-◌, ◌≤◌, ◌<◌, not, eqb, length};
ghost use Rattle.std.specs.List.{count_by, suffix_len};
ghost use Rattle.spots.specs.Spots.{spot, spot_at, line_from, column_from, unplaced as unplaced_at, first as first_of};
ghost use Rattle.spots.specs.Going.{Near, onward as onward_by, along as along_by};

// "A place is the offset of the first byte of what is named"; "line and column, both from 1".
#[derive(Clone, Copy)]
pub struct Spot {
    pub place: usize,
    pub line: usize,
    pub column: usize,
}

const NEWLINE: u8 = 10;

// The first byte of a text.
pub fn first() -> Spot
    ensures { result ≡ first_of }
{
    Spot {
        place: 0,
        line: 1,
        column: 1,
    }
}

// A place that "reports line and column 0".
pub fn unplaced(place: usize) -> Spot
    ensures { result ≡ unplaced_at place }
{
    Spot {
        place,
        line: 0,
        column: 0,
    }
}

// ── by the bytes before a place ──

// How many of these bytes end a line.
fn newlines(s: &[u8]) -> usize
    ensures is { result ≡ count_by (λ b. eqb b 10) s.now }
    ensures fits { result ≤ length s.now }
{
    let mut n = 0;
    for b in s {
        if *b == NEWLINE {
            n += 1;
        }
    }
    n
}

// How many of these bytes stand behind the last that ends a line; all, where none does.
fn since_newline(s: &[u8]) -> usize
    ensures is { result ≡ suffix_len (λ b. not (eqb b 10)) s.now }
    ensures fits { result ≤ length s.now }
{
    s.iter().rev().take_while(|b| **b != NEWLINE).count()
}

// The place behind these bytes.
fn behind(s: &[u8], place: usize) -> Spot
    ensures { result ≡ spot place (line_from 1 s.now) (column_from 1 s.now) }
{
    let line = 1 + newlines(s);
    if line == 1 {
        return Spot {
            place,
            line,
            column: s.len() + 1,
        };
    }
    Spot {
        place,
        line,
        column: since_newline(s) + 1,
    }
}

pub fn spot_at(s: &[u8], place: usize) -> Spot
    ensures { result ≡ spot_at s.now place }
{
    if place < s.len() {
        return behind(&s[..place], place);
    }
    behind(s, place)
}

// ── from another place ──

// A place that is counted from another, as one of the whole text.
pub fn onward(a: Spot, b: Spot) -> Spot
    requires { Near a × Near b }
    ensures { result ≡ onward_by a b }
{
    if b.line == 1 {
        return Spot {
            place: a.place + b.place,
            line: a.line,
            column: a.column + b.column - 1,
        };
    }
    Spot {
        place: a.place + b.place,
        line: a.line + b.line - 1,
        column: b.column,
    }
}

// The place n bytes on, none of which ends a line.
pub fn along(a: Spot, n: usize) -> Spot
    requires { Near a × (n ≤ 4294967296) }
    ensures { result ≡ along_by a n }
{
    Spot {
        place: a.place + n,
        line: a.line,
        column: a.column + n,
    }
}
