// The runner for C and Rust: a case as `runbatch` has it, run on the storage lent, and the line that answers it.
#![tactic(auto)]

ghost use Rattle.std.specs.Prelude.{◌≤◌, length};

// How long the line is; 0 where there is no case that can be run in this storage.
pub fn tautgaff_run_case(case: &[u8], store: &mut [u8], out: &mut [u8]) -> usize
    ensures { result ≤ length out.old }
{
    match run_cases::answer(case, store, out) {
        Some(told) => told.size,
        None => 0,
    }
}
