// Every stored run through the proved runner: the line that it answers against the stored line.
#![tactic(auto)]

ghost use Rattle.std.specs.Prelude.{◌≤◌, length};

use lines::{tally, window};
use std::io::Print;
use std::rt::Files;
use std::{fs, io};

// No vector is longer.
const VECTOR: usize = 32768;

// A proved loop has to end, and nothing says that a file does: no file has so many vectors.
const MOST: u64 = 1000000;

// How many bytes a vector has, 0 where there is none, and whether the answer is the stored one.
#[derive(Clone, Copy)]
struct Compared {
    used: usize,
    is_equal: bool,
}

fn compare(input: &[u8], store: &mut [u8], out: &mut [u8]) -> Compared
    ensures { result.used ≤ length input.now }
{
    let told = run_cases::answer(input, store, out);
    let (used, size) = told.map_or((0, 0), |told| (told.used, told.size));
    let rest = &input[used..];
    let line = window::line(rest);
    Compared {
        used: used + line,
        is_equal: &rest[..line] == &out[..size],
    }
}

fn compare_all<R: Files + Print>(
    rt: &R,
    name: &str,
    input: &mut [u8],
    store: &mut [u8],
    out: &mut [u8],
) -> io::Result<()> {
    let mut file = fs::open(rt, name)?;
    let mut at: usize = 0;
    let mut to = window::refill(&mut file, input, 0, 0);
    let mut compared: u64 = 0;
    let mut equal: u64 = 0;
    for number in 1..=MOST {
        if at == to {
            break;
        }
        let Compared { used, is_equal } = compare(&input[at..to], store, out);
        compared = number;
        equal = tally::counted(rt, is_equal, number, equal);
        let next = window::keep(&mut file, input, at + used, to, VECTOR);
        at = next.at;
        to = next.to;
    }
    tally::say(rt, name.as_bytes(), compared, equal);
    Ok(())
}

fn main(rt: HostRuntime) -> io::Result<()> {
    let mut input = [0u8; 65536];
    let mut store = [0u8; 65536];
    let mut out = [0u8; 4096];
    compare_all(&rt, "runs", &mut input, &mut store, &mut out)?;
    compare_all(&rt, "hercules-runs", &mut input, &mut store, &mut out)?;
    compare_all(&rt, "examples", &mut input, &mut store, &mut out)
}
