// Every stored text through the proved translator: number, place, line, column, every byte of the object text, and every other byte of the buffer as it was.
#![tactic(auto)]

ghost use Rattle.std.specs.Prelude.{◌≤◌, length, IfSome};

use lines::{output, tally, window};
use std::io::Print;
use std::rt::Files;
use std::{fs, io};

// No vector is longer.
const VECTOR: usize = 49152;

// A proved loop has to end, and nothing says that a file does: no file has so many vectors.
const MOST: u64 = 1000000;

// Text length, room, number, place, line, column and length of the object text.
const FIELDS: usize = 7;

const LENGTH: usize = 6;

// Every byte of the buffer before a translation.
const BEFORE: u8 = 165;

// How many bytes a vector has, and whether the answer is the stored one.
#[derive(Clone, Copy)]
struct Compared {
    used: usize,
    is_equal: bool,
}

// A room beyond the buffer stands for an unlimited one: no object text is longer than the buffer.
fn room_in(buffer: &[u8], room: u64) -> usize
    ensures { result ≤ length buffer.now }
{
    room.min(buffer.len() as u64) as usize
}

// Whether number, place, line, column and length are the stored ones.
fn is_stored(said: u64, answer: [usize; 4], fields: &[u64; FIELDS]) -> bool {
    (said == fields[2])
        & (answer[0] as u64 == fields[3])
        & (answer[1] as u64 == fields[4])
        & (answer[2] as u64 == fields[5])
        & (answer[3] as u64 == fields[LENGTH])
}

// Whether a text in so much of the buffer has this answer; the buffer is compared whole with what has to stand in it.
fn translates(
    text: &[u8],
    buffer: &mut [u8],
    expected: &mut [u8],
    fields: &[u64; FIELDS],
    object: &[u8],
) -> bool {
    buffer.fill(BEFORE);
    expected.fill(BEFORE);
    output::put_all(expected, 0, object);
    let end = room_in(buffer, fields[1]);
    let mut answer = [0usize; 4];
    let said = c_translate::tautgaff_translate(text, &mut buffer[..end], &mut answer);
    let is_same = check::same(buffer, expected);
    is_stored(said, answer, fields) & is_same
}

fn compare(input: &[u8], buffer: &mut [u8], expected: &mut [u8]) -> Option<Compared>
    ensures { IfSome result (λ c. c.used ≤ length input.now) }
{
    let mut fields = [0u64; FIELDS];
    let text = text_cases::text_in(input, &mut fields)?;
    let rest = (input.len() - text.end) as u64;
    if rest < 2 {
        return None;
    }
    if rest - 2 < fields[LENGTH] {
        return None;
    }
    let first = text.end + 1;
    let end = first + fields[LENGTH] as usize;
    let is_equal = translates(
        &input[text.start..text.end],
        buffer,
        expected,
        &fields,
        &input[first..end],
    );
    Some(Compared {
        used: end + 1,
        is_equal,
    })
}

fn compare_all<R: Files + Print>(
    rt: &R,
    name: &str,
    input: &mut [u8],
    buffer: &mut [u8],
    expected: &mut [u8],
) -> io::Result<()> {
    let mut file = fs::open(rt, name)?;
    let mut at: usize = 0;
    let mut to = window::refill(&mut file, input, 0, 0);
    let mut compared: u64 = 0;
    let mut equal: u64 = 0;
    for number in 1..=MOST {
        if at == to {
            break;
        }
        let (used, is_equal) = match compare(&input[at..to], buffer, expected) {
            Some(c) => (c.used, c.is_equal),
            None => (0, false),
        };
        compared = number;
        equal = tally::counted(rt, is_equal, number, equal);
        let next = window::keep(&mut file, input, at + used, to, VECTOR);
        at = next.at;
        to = next.to;
    }
    tally::say(rt, name.as_bytes(), compared, equal);
    Ok(())
}

fn main(rt: HostRuntime) -> io::Result<()> {
    let mut input = [0u8; 65536];
    let mut buffer = [0u8; 65536];
    let mut expected = [0u8; 65536];
    compare_all(&rt, "texts", &mut input, &mut buffer, &mut expected)?;
    compare_all(&rt, "examples", &mut input, &mut buffer, &mut expected)
}
