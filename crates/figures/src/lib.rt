// Texts that are put together in lent room, numbers in them, and parts of texts.
#![tactic(auto, using(crate::proofs::Writing::then, crate::proofs::Writing::still))]

ghost use Rattle.std.specs.Prelude.{◌≡◌, [], ◌∷◌, ◌+◌, ◌-◌, ◌≤◌, ◌<◌, ◌^◌, length, map, take, drop, get_or, replicate, IfSome};
ghost use Rattle.base.specs.Text.{same_bytes};
ghost use Rattle.figures.specs.Writing.{Puts, StandsIn};
ghost use Rattle.figures.specs.Digits.{digit as digit_for, numeral, decimal, signed, hexadecimal};
ghost use Rattle.figures.specs.Parts.{left_after, behind as behind_of, part_length, part_count, part_of, shown, filled, entry_of};
ghost use Rattle.figures.specs.Numbers.{digit_of, with_digit, digits as digits_of, whole_number, minus as minus_of, number_in};

// ── writing ──

// A text that is written from the front of lent room, and where it ends. What has no room is left out.
#[derive(Drop)]
pub struct Text<'a> {
    room: &'a mut [u8],
    end: usize,
}

impl<'a> Text<'a> {
    // No text yet.
    pub fn new(room: &'a mut [u8]) -> Text<'a>
        ensures { StandsIn room.entry 0 result }
    {
        Text { room, end: 0 }
    }

    // What stands in the room up to a place.
    pub fn up_to(room: &'a mut [u8], end: usize) -> Text<'a>
        ensures { StandsIn room.entry end result }
    {
        Text { room, end }
    }
}

impl Text<'_> {
    pub fn end(&self) -> usize
        ensures { result ≡ self.now.end }
    {
        self.end
    }

    pub fn put(&mut self, b: u8)
        ensures { Puts (b ∷ []) self.old self.new }
    {
        if self.end < self.room.len() {
            self.room[self.end] = b;
            self.end += 1;
        }
    }

    pub fn put_all(&mut self, piece: &[u8])
        ensures { Puts piece.now self.old self.new }
    {
        for b in piece {
            self.put(*b);
        }
    }

    pub fn put_times(&mut self, b: u8, n: usize)
        ensures { Puts (replicate n b) self.old self.new }
    {
        for _ in 0..n {
            self.put(b);
        }
    }

    // A number to a base in at most k places, and in at least so many.
    fn put_digits(&mut self, base: usize, least: usize, k: usize, n: usize)
        requires { (1 < base) × (base ≤ 16) }
        ensures { Puts (numeral base least k n) self.old self.new }
    {
        if k == 0 {
            return;
        }
        let last = digit(n % base);
        if (n < base) & (least < 2) {
            return self.put(last);
        }
        self.put_digits(base, least.saturating_sub(1), k - 1, n / base);
        self.put(last);
    }

    pub fn put_decimal(&mut self, n: usize)
        ensures { Puts (decimal n) self.old self.new }
    {
        self.put_digits(10, 1, 20, n);
    }

    pub fn put_signed(&mut self, n: u32)
        ensures { Puts (signed n) self.old self.new }
    {
        if n < 2147483648 {
            return self.put_decimal(n as usize);
        }
        self.put(b'-');
        self.put_decimal(4294967296 - (n as usize));
    }

    pub fn put_hexadecimal(&mut self, n: u32)
        ensures { Puts (hexadecimal n) self.old self.new }
    {
        self.put_digits(16, 8, 8, n as usize);
    }

    // The part of a text with the number n.
    pub fn put_part(&mut self, s: &[u8], sep: u8, n: usize)
        ensures { Puts (part_of sep n s.now) self.old self.new }
    {
        self.put_all(part(s, sep, n));
    }

    // A byte of a phrase.
    fn put_shown(&mut self, b: u8, n: usize)
        ensures { Puts (shown n b) self.old self.new }
    {
        if b == b'%' {
            self.put_decimal(n);
        } else {
            self.put(b);
        }
    }

    // A phrase with a number put for each `%`.
    pub fn put_filled(&mut self, phrase: &[u8], n: usize)
        ensures { Puts (filled n phrase.now) self.old self.new }
    {
        for b in phrase {
            self.put_shown(*b, n);
        }
    }

    // The phrase with the number k of a table, one a line, with a number put for each `%`.
    pub fn put_phrase(&mut self, phrases: &[u8], k: usize, n: usize)
        ensures { Puts (filled n (part_of 10 k phrases.now)) self.old self.new }
    {
        self.put_filled(part(phrases, b'\n', k), n);
    }
}

// ── digits ──

// "Capital hexadecimal".
const DIGITS: &[u8; 16] = b"0123456789ABCDEF";

fn digit(d: usize) -> u8
    requires { d < 16 }
    ensures { result ≡ digit_for d }
{
    DIGITS[d]
}

// ── parts ──

// The first n bytes, or all.
pub fn front(s: &[u8], n: usize) -> &[u8]
    ensures { result.now ≡ take n s.now }
{
    s.get(..n).unwrap_or(s)
}

// What comes behind the first n bytes.
pub fn rest(s: &[u8], n: usize) -> &[u8]
    ensures { result.now ≡ drop n s.now }
{
    s.get(n..).unwrap_or(&[])
}

fn left_after(b: u8, sep: u8, left: usize) -> usize
    ensures { result ≡ left_after b sep left }
{
    if b == sep {
        left.saturating_sub(1)
    } else {
        left
    }
}

// Where what comes behind the first n separators begins.
pub fn behind(s: &[u8], sep: u8, n: usize) -> usize
    ensures { (drop result s.now ≡ behind_of sep n s.now) × (result ≤ length s.now) }
{
    let mut left = n;
    for (i, b) in s.iter().enumerate() {
        if left == 0 {
            return i;
        }
        left = left_after(*b, sep, left);
    }
    s.len()
}

// How many bytes stand before the next separator.
pub fn part_length(s: &[u8], sep: u8) -> usize
    ensures { (result ≡ part_length sep s.now) × (result ≤ length s.now) }
{
    s.iter().position(|b| *b == sep).unwrap_or(s.len())
}

// The part with the number n.
pub fn part(s: &[u8], sep: u8, n: usize) -> &[u8]
    ensures { result.now ≡ part_of sep n s.now }
{
    let from = behind(s, sep, n);
    let to = from + part_length(&s[from..], sep);
    &s[from..to]
}

// How many separators there are.
pub fn part_count(s: &[u8], sep: u8) -> usize
    ensures { (result ≡ part_count sep s.now) × (result ≤ length s.now) }
{
    s.iter().filter(|b| **b == sep).count()
}

// The text with the number n of a table, or none.
pub fn entry<'a>(texts: &[&'a [u8]], n: usize) -> &'a [u8]
    ensures { result.now ≡ entry_of (map (λ t. t.now) texts.now) n }
{
    texts.get(n).map_or(b"", |text| *text)
}

// ── comparing ──

// The first byte, or 0.
pub fn first(s: &[u8]) -> u8
    ensures { result ≡ get_or s.now 0 0 }
{
    s.first().copied().unwrap_or(0)
}

// The byte at a place, or 0 past the end.
pub fn byte(s: &[u8], i: usize) -> u8
    ensures { result ≡ get_or s.now i 0 }
{
    s.get(i).copied().unwrap_or(0)
}

pub fn same(s: &[u8], t: &[u8]) -> bool
    ensures { result ≡ same_bytes s.now t.now }
{
    s == t
}

// ── reading ──

// What a digit stands for.
pub fn digit_of(b: u8) -> Option<usize>
    ensures { (result ≡ digit_of b) × IfSome result (λ d. d < 16) }
{
    match b {
        b'0'..=b'9' => Some((b - b'0') as usize),
        b'A'..=b'F' => Some((b - b'A' + 10) as usize),
        _ => None,
    }
}

// A number with a digit more.
fn with_digit(v: usize, b: u8, base: usize, limit: usize) -> Option<usize>
    requires { (base ≤ 16) × (limit < 2 ^ 32) × (v ≤ limit) }
    ensures { (result ≡ with_digit base limit v b) × IfSome result (λ n. n ≤ limit) }
{
    let d = digit_of(b)?;
    let next = v * base + d;
    if (d < base) & (next <= limit) {
        Some(next)
    } else {
        None
    }
}

fn digits(s: &[u8], base: usize, limit: usize) -> Option<u32>
    requires { (base ≤ 16) × (limit < 2 ^ 32) }
    ensures { result ≡ digits_of base limit 0 s.now }
{
    let mut v: usize = 0;
    for b in s {
        v = with_digit(v, *b, base, limit)?;
    }
    Some(v as u32)
}

fn whole_number(s: &[u8], base: usize, limit: usize) -> Option<u32>
    requires { (base ≤ 16) × (limit < 2 ^ 32) }
    ensures { result ≡ whole_number base limit s.now }
{
    if s.is_empty() {
        return None;
    }
    digits(s, base, limit)
}

fn minus(n: Option<u32>) -> Option<u32>
    ensures { result ≡ minus_of n }
{
    n.map(u32::wrapping_neg)
}

// A number as the language has it, or with `-` for `_`.
pub fn number(s: &[u8]) -> Option<u32>
    ensures { result ≡ number_in s.now }
{
    match s {
        [b'#', hexadecimal @ ..] => whole_number(hexadecimal, 16, 4294967295),
        [b'_' | b'-', decimal @ ..] => minus(whole_number(decimal, 10, 2147483648)),
        _ => whole_number(s, 10, 2147483647),
    }
}

// A number from 0 to 4294967295 in decimal.
pub fn count(s: &[u8]) -> Option<u32>
    ensures { result ≡ whole_number 10 (2 ^ 32 - 1) s.now }
{
    whole_number(s, 10, 4294967295)
}
