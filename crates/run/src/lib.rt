// Document 01, "Runner": a run of at most a budget of instructions.
#![tactic(auto)]

ghost use Rattle.std.specs.Prelude.{◌≡◌, ◌≤◌, length};
ghost use Rattle.machine.specs.Space.{room, needed, space_by};
ghost use Rattle.machine.specs.Step.{cpu};
ghost use Rattle.machine.specs.Run.{run as run_of};
ghost use Rattle.run.specs.Lent.{ran};

use instruction::step;
use machine::{MAP, Stop};

// How a run ended: its stop, the counter, the condition code, the count of completed instructions, the registers.
#[derive(Clone, Copy)]
pub struct Ran {
    pub stop: Stop,
    pub counter: u32,
    pub code: u64,
    pub count: u32,
    pub regs: [u32; 16],
}

pub fn run(
    program: usize,
    map: &[usize; MAP],
    given: [u32; 16],
    first: u64,
    start: u32,
    budget: u32,
    s: &mut [u8],
) -> Ran
    requires { (program ≤ room) × (needed ≤ length s.old) }
    ensures { ran result s.new ≡ run_of budget (space_by program map.now) (cpu given first start) s.old }
{
    let mut regs = given;
    let mut code = first;
    let mut at = start;
    for count in 0..budget {
        let next = step(program, map, &mut regs, s, code, at);
        code = next.code;
        at = next.at;
        if let Some(stop) = next.stop {
            return Ran {
                stop,
                counter: at,
                code,
                count,
                regs,
            };
        }
    }
    Ran {
        stop: Stop::BudgetUsed,
        counter: at,
        code,
        count: budget,
        regs,
    }
}
