// Events put on the tape.
ghost use Rattle.std.specs.Prelude.{◌≡◌, ◌<◌, length, set};
ghost use Rattle.tape.specs.Tape.{event};
ghost use Rattle.tape.specs.Events.{EVENTS, TOKEN-LIMIT};
ghost use Rattle.readers.specs.Reads.{Behind};

// Puts at p, whatever stands there and behind it, the event of this kind at this token.
pub fn put(tape: &mut [u32], p: usize, op: u32, token: usize)
    requires { (p < length tape.old) × ((op < EVENTS) × (token < TOKEN-LIMIT)) }
    ensures { tape.new ≡ set tape.old p (event op token) }
{
    tape[p] = (token as u32) * tape::EVENTS + op;
}

// Writes the event of this kind at this token behind what stands before p.
pub fn write(tape: &mut [u32], p: usize, op: u32, token: usize)
    requires { (p < length tape.old) × ((op < EVENTS) × (token < TOKEN-LIMIT)) }
    ensures { Behind (event op token) p tape.old tape.new }
{
    put(tape, p, op, token);
}
