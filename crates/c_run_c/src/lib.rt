// `tautgaff_run` for C and Rust: the function of the library `c_run` under its own name, in a static library.
#![tactic(auto)]

ghost use Rattle.std.specs.Prelude.{◌≡◌};
ghost use Rattle.runner.specs.Runner.{runner};
ghost use Rattle.c_run.specs.Lent.{lent};

// An object text, a condition code, a budget, and lent memory: 16 registers, the storage, seven results. The number is answered; place, line, column, stop,
// counter, code and count are left in the results.
#[unsafe(no_mangle)]
pub extern "C" fn tautgaff_run(
    object: &[u8],
    code: u64,
    budget: u32,
    registers: &mut [u32; 16],
    storage: &mut [u8],
    results: &mut [u64; 7],
) -> u64
    ensures { lent result registers.new results.new storage.new ≡ runner object.now registers.old code budget storage.old }
{
    c_run::tautgaff_run(object, code, budget, registers, storage, results)
}
