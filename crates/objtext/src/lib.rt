// The reader of the object text: how many segments it has, and where their bytes stand. A place past the text's end reads as no digit.
#![tactic(auto)]

ghost use Rattle.std.specs.Prelude.{◌≡◌, true, ◌+◌, ◌*◌, ◌/◌, ◌%◌, ◌<◌, ◌≤◌, length, get_or, drop, MatchOption};
ghost use Rattle.std.proofs.lemmas.List.Edits.{sets};
ghost use Rattle.objtext.specs.Object.{frames_for, program_limit, data_limit, content_limit};
ghost use Rattle.objtext.specs.Reader.{digit_of, byte_of, two_of, is_line, program_line, data_line, content_length, is_content_frame, is_content, content_at, head_length, is_program, is_data, is_last, read_as, read_object};

use base::least;

pub const NEWLINE: u8 = 10;

// "lengths at most 4,096".
pub const PROGRAM_LIMIT: usize = 4096;

pub const DATA_LIMIT: usize = 4096;

// "16 bytes a frame", behind a head of five; the characters of the head, of a line without bytes, and of a whole frame's line.
pub const FRAME_BYTES: usize = 16;

const FRAME_HEAD_BYTES: usize = 5;

pub const BYTES_PLACE: usize = 10;

pub const FRAME_HEAD_LINE: usize = 11;

const FRAME_LINE: usize = 43;

// The bytes of the heads, and the characters of their lines.
const PROGRAM_HEAD_BYTES: usize = 4;

pub const PROGRAM_HEAD: usize = 9;

const DATA_HEAD_BYTES: usize = 8;

pub const DATA_HEAD: usize = 17;

// Where the parts of a line stand: the segment's number; of a head its length and what is writable; of a frame its offset and count.
const NUMBER_PLACE: usize = 2;

pub const LENGTH_PLACE: usize = 4;

pub const FROM_PLACE: usize = 8;

pub const TO_PLACE: usize = 12;

const OFFSET_PLACE: usize = 4;

const COUNT_PLACE: usize = 8;

// One program and up to three data segments.
const MOST_SEGMENTS: usize = 4;

// Kept: a text and a place in it, since a place may lie behind the text's end, from where no slice can be cut.
fn char_at(t: &[u8], i: usize) -> u8
    ensures { result ≡ get_or t.now i 0 }
{
    if i < t.len() { t[i] } else { 0 }
}

// The value of a capital hexadecimal digit.
fn digit(c: u8) -> Option<usize>
    ensures { MatchOption result (digit_of c ≡ 16) (λ d. (digit_of c ≡ d) × (d < 16)) }
{
    match c {
        b'0'..=b'9' => Some((c - b'0') as usize),
        b'A'..=b'F' => Some((c - b'A') as usize + 10),
        _ => None,
    }
}

// The byte in two digits.
fn byte(t: &[u8], i: usize) -> Option<usize>
    requires { i < 1000000 }
    ensures { MatchOption result (byte_of (drop i t.now) ≡ 256) (λ b. (byte_of (drop i t.now) ≡ b) × (b < 256)) }
{
    let high = digit(char_at(t, i))?;
    let low = digit(char_at(t, i + 1))?;
    Some(high * 16 + low)
}

// The byte at a place, 256 where there is none.
pub fn byte_at(t: &[u8], i: usize) -> usize
    requires { i < 1000000 }
    ensures { (result ≡ byte_of (drop i t.now)) × (result ≤ 256) }
{
    byte(t, i).unwrap_or(256)
}

pub fn two_at(t: &[u8], i: usize) -> usize
    requires { i < 900000 }
    ensures { (result ≡ two_of (drop i t.now)) × (result ≤ 65792) }
{
    byte_at(t, i) * 256 + byte_at(t, i + 2)
}

fn is_line(t: &[u8], i: usize, n: usize) -> bool
    requires { (i < 800000) × (n < 100) }
    ensures { result ≡ is_line n (drop i t.now) }
{
    for j in 0..n {
        if byte(t, i + 2 * j).is_none() {
            return false;
        }
    }
    char_at(t, i + 2 * n) == NEWLINE
}

fn is_content_frame(t: &[u8], i: usize, k: usize, o: usize, n: usize) -> bool
    requires { (i < 700000) × (n ≤ 16) }
    ensures { result ≡ is_content_frame k o n (drop i t.now) }
{
    if is_line(t, i, FRAME_HEAD_BYTES + n) {
        return (byte_at(t, i) == 0)
            & (byte_at(t, i + NUMBER_PLACE) == k)
            & (two_at(t, i + OFFSET_PLACE) == o)
            & (byte_at(t, i + COUNT_PLACE) == n);
    }
    false
}

fn is_content(t: &[u8], i: usize, k: usize, n: usize) -> bool
    requires { (i < 600000) × (n ≤ content_limit) }
    ensures { result ≡ is_content (frames_for n) k 0 n (drop i t.now) }
{
    for m in 0..(n + 15) / FRAME_BYTES {
        let o = FRAME_BYTES * m;
        if !is_content_frame(t, i + FRAME_LINE * m, k, o, least(FRAME_BYTES, n - o)) {
            return false;
        }
    }
    true
}

pub fn content_length(n: usize) -> usize
    requires { n ≤ content_limit }
    ensures { (result ≡ content_length n) × (result ≤ content_length content_limit) }
{
    2 * n + FRAME_HEAD_LINE * ((n + 15) / FRAME_BYTES)
}

// Kept: beside `is_data`, since one function for both would be handed the head's kind, bytes and limit, and `is_data` would still make its own tests.
fn is_program(t: &[u8], i: usize, k: usize) -> bool
    requires { i < 500000 }
    ensures { (result ≡ is_program k (drop i t.now)) × (result ≡ true → head_length (drop i t.now) ≤ program_limit) }
{
    let n = two_at(t, i + LENGTH_PLACE);
    if PROGRAM_LIMIT < n {
        return false;
    }
    if is_line(t, i, PROGRAM_HEAD_BYTES)
        & (byte_at(t, i) == 1)
        & (byte_at(t, i + NUMBER_PLACE) == k)
    {
        return is_content(t, i + PROGRAM_HEAD, k, n);
    }
    false
}

fn is_data(t: &[u8], i: usize, k: usize) -> bool
    requires { i < 500000 }
    ensures { (result ≡ is_data k (drop i t.now)) × (result ≡ true → head_length (drop i t.now) ≤ data_limit) }
{
    let n = two_at(t, i + LENGTH_PLACE);
    if DATA_LIMIT < n {
        return false;
    }
    let from = two_at(t, i + FROM_PLACE);
    let to = two_at(t, i + TO_PLACE);
    if is_line(t, i, DATA_HEAD_BYTES)
        & (byte_at(t, i) == 2)
        & (byte_at(t, i + NUMBER_PLACE) == k)
        & (from <= to)
        & (to <= n)
    {
        return is_content(t, i + DATA_HEAD, k, n);
    }
    false
}

// "last line FF", and nothing behind it.
fn is_last(t: &[u8], i: usize) -> bool
    requires { i < 500000 }
    ensures { result ≡ is_last (drop i t.now) }
{
    (byte_at(t, i) == 255) & (char_at(t, i + 2) == NEWLINE) & (i + 3 == t.len())
}

// The place behind the data segment whose head stands at a place.
pub fn after_data(t: &[u8], i: usize) -> usize
    requires { (i < 500000) × (head_length (drop i t.now) ≤ data_limit) }
    ensures { (result ≡ i + (data_line + content_length (head_length (drop i t.now)))) × (result ≤ i + (data_line + content_length content_limit)) }
{
    i + (DATA_HEAD + content_length(two_at(t, i + LENGTH_PLACE)))
}

pub fn after_program(t: &[u8]) -> usize
    requires { head_length t.now ≤ program_limit }
    ensures { (result ≡ program_line + content_length (head_length t.now)) × (result ≤ program_line + content_length content_limit) }
{
    PROGRAM_HEAD + content_length(two_at(t, LENGTH_PLACE))
}

// The number of segments, where the text is of the form.
pub fn read(t: &[u8]) -> Option<usize>
    ensures { read_as result t.now ≡ read_object t.now }
{
    if !is_program(t, 0, 0) {
        return None;
    }
    let mut at = after_program(t);
    if !is_data(t, at, 1) {
        return None;
    }
    at = after_data(t, at);
    for k in 2..MOST_SEGMENTS {
        if is_last(t, at) {
            return Some(k);
        }
        if !is_data(t, at, k) {
            return None;
        }
        at = after_data(t, at);
    }
    if is_last(t, at) {
        Some(MOST_SEGMENTS)
    } else {
        None
    }
}

// Lays the n bytes of the content whose frames stand at place i of the text from `at`.
pub fn fill(t: &[u8], i: usize, n: usize, s: &mut [u8], at: usize)
    requires { (i < 500000) × (n ≤ content_limit) × (at < 1000000) × (at + n ≤ length s.old) }
    ensures { s.new ≡ sets s.old at (content_at (frames_for n) n (drop i t.now)) }
{
    for j in 0..n {
        let byte = byte_at(
            t,
            i + j / FRAME_BYTES * FRAME_LINE + BYTES_PLACE + j % FRAME_BYTES * 2,
        );
        s[at + j] = (byte % 256) as u8;
    }
}
