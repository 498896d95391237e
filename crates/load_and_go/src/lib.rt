// A source translated, its object text loaded and run, in one call: the answers of the translator and of the runner, by their definitions. Whatever is
// refused is refused before any lent byte is written.
#![tactic(auto)]

ghost use Rattle.std.specs.Prelude.{◌≡◌, length};
ghost use Rattle.machine.specs.Space.{needed};
ghost use Rattle.spots.specs.Spots.{unplaced};
ghost use Rattle.runner.specs.Numbers.{number_of};
ghost use Rattle.load_and_go.specs.Going.{outcome, load_and_go};

use runner::{Ran, Refusal};
use spots::{Spot, unplaced};

// "code over 3", "storage under 20,480 bytes".
const LAST_CODE: u64 = 3;

const NEEDED: usize = machine::ROOM * machine::PAGES;

// The length of the object text, and how its run ended.
#[derive(Clone, Copy)]
pub struct Went {
    pub length: usize,
    pub ran: Ran,
}

// The number of a refusal of the translator or of the runner, and where in the source it is.
#[derive(Clone, Copy)]
pub struct Refused {
    pub number: usize,
    pub spot: Spot,
}

impl From<Refusal> for Refused {
    ghost from_gives = { λ r q. q ≡ record { number = number_of r; spot = unplaced 0 } };

    fn from(refusal: Refusal) -> Refused {
        Refused {
            number: refusal as usize,
            spot: unplaced(0),
        }
    }
}

pub fn load_and_go(
    src: &[u8],
    object: &mut [u8],
    regs: [u32; 16],
    code: u64,
    budget: u32,
    s: &mut [u8],
) -> Result<Went, Refused>
    ensures { outcome result regs code object.new s.new ≡ load_and_go src.now regs code budget object.old s.old }
{
    if LAST_CODE < code {
        return Err(Refused::from(Refusal::BadCode));
    }
    if s.len() < NEEDED {
        return Err(Refused::from(Refusal::SmallStorage));
    }
    let length = match translate::translate(src, object) {
        Ok(written) => written,
        Err(e) => {
            return Err(Refused {
                number: e.number,
                spot: e.spot,
            });
        }
    };
    let ran = runner::run_object(&object[..length], regs, code, budget, s)?;
    Ok(Went { length, ran })
}
