// `tautgaff_run_case` for C and Rust: the function of the library `c_runner` under its own name, in a static library.
#![tactic(auto)]

ghost use Rattle.std.specs.Prelude.{◌≤◌, length};

// How long the line is; 0 where there is no case that can be run in this storage.
#[unsafe(no_mangle)]
pub extern "C" fn tautgaff_run_case(case: &[u8], store: &mut [u8], out: &mut [u8]) -> usize
    ensures { result ≤ length out.old }
{
    c_runner::tautgaff_run_case(case, store, out)
}
