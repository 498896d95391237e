// A case for the runner as `runbatch` has it (a line `length budget cc storage-length r0 … r15`, the object text, a newline), run on storage of 165s, and the
// line that answers it (`number place line column stop counter cc count r0 … r15 hash`).
#![tactic(auto)]

ghost use Rattle.std.specs.Prelude.{◌≤◌, length, IfSome};

use lines::{checksum, decimal, output};

const FIELDS: usize = 20;

const BEFORE: u8 = 165;

// The line that answers, with its newline: how many bytes it has.
fn put_answer(out: &mut [u8], number: u64, results: [u64; 7], regs: [u32; 16], hash: u64) -> usize
    ensures { result ≤ length out.old }
{
    let first = [
        number, results[0], results[1], results[2], results[3], results[4], results[5], results[6],
    ];
    let rest = regs.map(u64::from);
    let mut end = output::put_fields(out, 0, &first);
    end = output::put_fields(out, end, &rest);
    end = output::put_hexadecimal(out, end, hash);
    output::put(out, end, b'\n')
}

// The budget and the registers, where they are numbers of 32 bits: the registers are the last 16 of the numbers.
fn words(fields: &[u64; FIELDS]) -> Option<(u32, [u32; 16])> {
    let budget = u32::try_from(fields[1]).ok()?;
    let mut regs = [0u32; 16];
    for (reg, field) in regs.iter_mut().zip(&fields[4..]) {
        *reg = u32::try_from(*field).ok()?;
    }
    Some((budget, regs))
}

// How much of the input a case takes, and how long the line is that answers it.
#[derive(Clone, Copy)]
pub struct Told {
    pub used: usize,
    pub size: usize,
}

fn run(
    text: &[u8],
    regs: [u32; 16],
    code: u64,
    budget: u32,
    store: &mut [u8],
    out: &mut [u8],
) -> usize
    ensures { result ≤ length out.old }
{
    store.fill(BEFORE);
    let mut left = regs;
    let mut results = [0u64; 7];
    let number = c_run::tautgaff_run(text, code, budget, &mut left, store, &mut results);
    put_answer(out, number, results, left, checksum::checksum(store))
}

// The case at the front of the input, if there is one that can be run in the storage lent.
pub fn answer(input: &[u8], store: &mut [u8], out: &mut [u8]) -> Option<Told>
    ensures { IfSome result (λ told. (told.used ≤ length input.now) × (told.size ≤ length out.old)) }
{
    let mut fields = [0u64; FIELDS];
    let head = decimal::fields(input, &mut fields)?;
    let (budget, regs) = words(&fields)?;
    let length = usize::try_from(fields[0]).ok()?;
    let room = usize::try_from(fields[3]).ok()?;
    let text = &input[head..];
    if text.get(length) != Some(&b'\n') || store.len() < room {
        return None;
    }
    let size = run(
        &text[..length],
        regs,
        fields[2],
        budget,
        &mut store[..room],
        out,
    );
    Some(Told {
        used: head + length + 1,
        size,
    })
}
