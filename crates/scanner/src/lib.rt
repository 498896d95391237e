// The next token of what remains of a text: document 01, "Text and tokens", and refusals 2 and 3.
#![tactic(auto)]

mod entries;

ghost use Rattle.std.specs.Prelude.{◌≡◌, true, ◌+◌, ◌≤◌, ◌<◌, ◌^◌, min, length, take, get_or};
ghost use Rattle.std.specs.List.{prefix_len};
ghost use Rattle.spots.specs.Spots.{spot_at, NoNewline};
ghost use Rattle.token.specs.Kinds as K;
ghost use Rattle.token.specs.Text as T;
ghost use Rattle.token.specs.Answers.{outcome_of};
ghost use Rattle.scanner.specs.Inner.{in_class, Digited, Named, key_kind, in_base, bits_of, two_or, longer_by};

use crate::entries::{entry, place};
use spots::{Spot, spot_at};
use token::{Lexeme, Refusal, Token, Why, kinds};

// The classes of bytes that runs are made of.
#[derive(Clone, Copy)]
enum Class {
    Blank,
    Separator,
    InComment,
}

fn in_class(c: Class, b: u8) -> bool
    ensures { result ≡ in_class c b }
{
    match c {
        Class::Blank => b == b' ',
        Class::Separator => (b == b' ') | (b == b'\n'),
        Class::InComment => b != b';',
    }
}

// How many bytes at the front are of the class.
fn run(c: Class, s: &[u8]) -> usize
    ensures is { result ≡ prefix_len (in_class c) s.now }
    ensures fits { result ≤ length s.now }
{
    s.iter().take_while(|b| in_class(c, **b)).count()
}

// What a digit or a capital stands for, and 36 for any other byte.
// Kept: the definition `digit_of` (token/specs/Text) says 36, by which a name's key and a number to any base are one definition.
fn digit(b: u8) -> u64
    ensures { (result ≡ T.digit_of b) × (result ≤ 36) }
{
    match b {
        b'0'..=b'9' => u64::from(b - b'0'),
        b'A'..=b'Z' => u64::from(b - 55),
        _ => 36,
    }
}

// Numbers are cut off here: every limit of the language and every name's key lies below.
const CAP: u64 = 4503599627370496;

// How many digits or characters, and the number or the key that they make.
#[derive(Clone, Copy)]
struct Spelled {
    size: usize,
    value: u64,
}

// The digits to a base at the front.
fn digits(base: u64, s: &[u8]) -> Spelled
    requires { base ≤ 36 }
    ensures { Digited base s.now result }
{
    let mut value: u64 = 0;
    for (size, b) in s.iter().enumerate() {
        let d = digit(*b);
        if base <= d {
            return Spelled { size, value };
        }
        value = CAP.min(value * base + d);
    }
    Spelled {
        size: s.len(),
        value,
    }
}

// The kind of the word with this key, or of a name.
fn word(key: u64) -> u8
    ensures { result ≡ key_kind K.words key }
{
    let w = entry(place(key));
    if w / 64 == key {
        return (w % 64) as u8;
    }
    kinds::NAME
}

// A comment whose word has n bytes.
fn comment(n: usize, s: &[u8]) -> Result<Lexeme, Why>
    requires { n ≤ length s.now }
    ensures { result ≡ T.comment n s.now }
{
    let m = n + run(Class::InComment, &s[n..]);
    if m < s.len() {
        return Ok(Lexeme::Gap(m + 1));
    }
    Err(Why::NoToken)
}

// "the first 10 characters count"
const COUNTED: usize = 10;

// A name's key with the character of digit d behind i others.
fn longer(key: u64, i: usize, d: u64) -> u64
    requires { (key < 2 ^ 52) × (d ≤ 36) }
    ensures { result ≡ longer_by key i d }
{
    if i < COUNTED { key * 36 + d } else { key }
}

// The name at the front, with the key that the characters that count make.
fn name(s: &[u8]) -> Spelled
    ensures { Named s.now result }
{
    let mut value: u64 = 0;
    for (size, b) in s.iter().enumerate() {
        let d = digit(*b);
        if 36 <= d {
            return Spelled { size, value };
        }
        value = longer(value, size, d);
    }
    Spelled {
        size: s.len(),
        value,
    }
}

fn name_or_word(s: &[u8]) -> Result<Lexeme, Why>
    requires { (0 < length s.now) × (T.is_capital (get_or s.now 0 0) ≡ true) }
    ensures { result ≡ T.name_or_word s.now }
{
    let d = name(s);
    let size = d.size;
    let key = d.value;
    let kind = word(key);
    if kind == kinds::COMMENT {
        return comment(size, s);
    }
    if kind == kinds::NAME {
        return Ok(Lexeme::Token(kind, key, size));
    }
    Ok(Lexeme::Token(kind, 0, size))
}

// The digits after a mark of some bytes.
fn number(base: u64, most: u64, negative: bool, mark: usize, s: &[u8]) -> Result<Lexeme, Why>
    requires { (base ≤ 36) × (most < 2 ^ 32) × (mark ≤ 1) }
    ensures { result ≡ T.number (in_base base) base most (bits_of negative) mark s.now }
{
    let d = digits(base, s);
    let size = d.size;
    let v = d.value;
    if size == 0 {
        return Err(Why::NoToken);
    }
    if most < v {
        return Err(Why::OutOfRange);
    }
    if negative {
        return Ok(Lexeme::Token(kinds::NUMBER, (4294967296 - v) % 4294967296, mark + size));
    }
    Ok(Lexeme::Token(kinds::NUMBER, v, mark + size))
}

// A sign of two bytes where the second follows, or else `other`.
fn two_or(s: &[u8], second: u8, two: u8, other: Result<Lexeme, Why>) -> Result<Lexeme, Why>
    ensures { result ≡ two_or s.now second two other }
{
    if s.len() < 2 {
        return other;
    }
    if s[1] == second {
        return Ok(Lexeme::Token(two, 0, 2));
    }
    other
}

fn sign(s: &[u8]) -> Result<Lexeme, Why>
    requires { 0 < length s.now }
    ensures { result ≡ T.sign K.signs s.now }
{
    let b = s[0];
    match b {
        b'(' => Ok(Lexeme::Token(kinds::OPEN, 0, 1)),
        b')' => Ok(Lexeme::Token(kinds::CLOSE, 0, 1)),
        b'*' => Ok(Lexeme::Token(kinds::TIMES, 0, 1)),
        b'+' => two_or(
            s,
            b'+',
            kinds::ADD_LOGICAL,
            Ok(Lexeme::Token(kinds::PLUS, 0, 1)),
        ),
        b',' => Ok(Lexeme::Token(kinds::COMMA, 0, 1)),
        b'-' => two_or(
            s,
            b'-',
            kinds::SUBTRACT_LOGICAL,
            Ok(Lexeme::Token(kinds::MINUS, 0, 1)),
        ),
        b':' => two_or(
            s,
            b'=',
            kinds::BECOMES,
            Ok(Lexeme::Token(kinds::COLON, 0, 1)),
        ),
        b';' => Ok(Lexeme::Token(kinds::SEMICOLON, 0, 1)),
        b'<' => two_or(
            s,
            b'=',
            kinds::AT_MOST,
            Ok(Lexeme::Token(kinds::LESS, 0, 1)),
        ),
        b'=' => Ok(Lexeme::Token(kinds::EQUAL, 0, 1)),
        b'>' => two_or(
            s,
            b'=',
            kinds::AT_LEAST,
            Ok(Lexeme::Token(kinds::MORE, 0, 1)),
        ),
        b'@' => Ok(Lexeme::Token(kinds::AT, 0, 1)),
        b'^' => two_or(s, b'=', kinds::UNEQUAL, Err(Why::NoToken)),
        _ => Err(Why::NoToken),
    }
}

// What stands at the front.
fn front(s: &[u8]) -> Result<Lexeme, Why>
    requires { 0 < length s.now }
    ensures { result ≡ T.lexeme s.now }
{
    let b = s[0];
    if (b == b' ') | (b == b'\n') {
        return Ok(Lexeme::Gap(run(Class::Separator, s)));
    }
    if (b'A' <= b) & (b <= b'Z') {
        return name_or_word(s);
    }
    if (b'0' <= b) & (b <= b'9') {
        return number(10, 2147483647, false, 0, s);
    }
    if b == b'_' {
        return number(10, 2147483648, true, 1, &s[1..]);
    }
    if b == b'#' {
        return number(16, 4294967295, false, 1, &s[1..]);
    }
    sign(s)
}

// Where a place of a text stands: blanks in front of it end no line.
fn stands(s: &[u8], blanks: usize, at: usize) -> Spot
    requires { (blanks ≤ length s.now) × NoNewline (take blanks s.now) }
    ensures { result ≡ spot_at s.now at }
{
    if at == blanks {
        return Spot {
            place: at,
            line: 1,
            column: at + 1,
        };
    }
    spot_at(s, at)
}

// The next token of what remains of a text, and where it ended.
pub fn next_token(s: &[u8]) -> Result<(Token, usize), Refusal>
    ensures { outcome_of result ≡ T.next_token s.now }
{
    let blanks = run(Class::Blank, s);
    let mut at = blanks;
    while at < s.len() {
        let l = front(&s[at..]);
        match l {
            Ok(Lexeme::Gap(n)) => {
                at += n;
            }
            Ok(Lexeme::Token(kind, value, size)) => {
                let spot = stands(s, blanks, at);
                return Ok((Token { kind, value, spot }, at + size));
            }
            Err(why) => {
                let spot = stands(s, blanks, at);
                return Err(Refusal { why, spot });
            }
        }
    }
    let end = Token {
        kind: kinds::END_OF_TEXT,
        value: 0,
        spot: stands(s, blanks, at),
    };
    Ok((end, at))
}
