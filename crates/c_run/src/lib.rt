// The runner for C and Rust: an object text, a condition code, a budget, and lent memory: 16 registers, the storage, seven results. The number is
// answered; place, line, column, stop, counter, code and count are left in the results.
#![tactic(auto)]

ghost use Rattle.std.specs.Prelude.{◌≡◌};
ghost use Rattle.runner.specs.Runner.{runner};
ghost use Rattle.c_run.specs.Lent.{lent};

// `runner::run_object`. A refusal has no place, and leaves registers and condition code as they were given.
pub fn tautgaff_run(
    object: &[u8],
    code: u64,
    budget: u32,
    registers: &mut [u32; 16],
    storage: &mut [u8],
    results: &mut [u64; 7],
) -> u64
    ensures { lent result registers.new results.new storage.new ≡ runner object.now registers.old code budget storage.old }
{
    let given = *registers;
    match runner::run_object(object, given, code, budget, storage) {
        Ok(ran) => {
            let after = ran.regs;
            *registers = after;
            *results = [
                0,
                0,
                0,
                ran.stop as u64,
                ran.counter as u64,
                ran.code,
                ran.count as u64,
            ];
            0
        }
        Err(refusal) => {
            *results = [0, 0, 0, 0, 0, code, 0];
            refusal as u64
        }
    }
}
