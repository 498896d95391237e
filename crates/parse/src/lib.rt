// Programs: document 01, "Grammar", the rules that hold a statement. A text that is a program is written out as a tape of events in the order of reading
// (crate `tape`); one that is none is refused, 4 or 5, at a token.
#![tactic(auto)]

ghost use Rattle.std.specs.Prelude.{◌≡◌, ◌+◌, ◌≤◌, ◌<◌, length};
ghost use Rattle.token.specs.Text.{TEXT-LIMIT};
ghost use Rattle.grammar.specs.Grammar as G;
ghost use Rattle.tape.specs.Events.{TOKEN-LIMIT};
ghost use Rattle.tape.specs.Tape.{tape_statement};
ghost use Rattle.readers.specs.Reads.{SameTape, Wrote};
ghost use Rattle.parse.specs.Programs.{Parsed, KindsRead, judged, verdict_of};

use readers::reader::{Answer, Reader};
use readers::tokens::{Read, Refused, Why};
use spots::Spot;
use statements::statement;
use token::{Unread, kinds};
use token_lists::{TEXT_LIMIT, read_kinds, spot_in};

// "inside 64 such constructs"
const NESTING: usize = 64;

// "program = block @."
fn whole(r: &mut Reader) -> Answer
    ensures read { Wrote tape_statement G.program r.old r.new result }
    ensures same { SameTape r.old r.new }
{
    if r.kind() != kinds::BEGIN {
        return Err(Why::Unexpected);
    }
    statement(r, NESTING)?;
    r.wanted(kinds::AT)?;
    Ok(())
}

// The program whose first token is given: how many events are on the tape and the token after the program, or the refusal's token.
pub fn program(kinds: &[u8], first: usize, tape: &mut [u32]) -> Result<Read, Refused>
    requires { (first ≤ length kinds.now) × ((length kinds.now ≤ length tape.old) × (length kinds.now < TOKEN-LIMIT)) }
    ensures { Parsed kinds.now first tape.new result }
{
    let mut reader = Reader {
        kinds,
        tape,
        at: first,
        events: 0,
    };
    match whole(&mut reader) {
        Ok(()) => Ok(Read {
            at: reader.at,
            value: reader.events,
        }),
        Err(why) => Err(Refused { why, at: reader.at }),
    }
}

// Why a text is no program, and where.
#[derive(Clone, Copy)]
pub enum Refusal {
    TooLong,
    NoToken(Spot),
    OutOfRange(Spot),
    Unexpected(Spot),
    TooDeep(Spot),
}

// What is said of a text: it is a program, or not.
pub type Verdict = Result<(), Refusal>;

// A text whose n tokens were read, by their kinds; where a refused token stands is sought in the text.
fn answer_tokens(src: &[u8], kinds: &[u8], n: usize, tape: &mut [u32]) -> Verdict
    requires { KindsRead src.now kinds.now n × (length src.now < length tape.old) }
    ensures { verdict_of result ≡ judged src.now }
{
    match program(&kinds[..n], 0, tape) {
        Ok(_) => Ok(()),
        Err(e) => {
            let spot = spot_in(src, e.at);
            match e.why {
                Why::Unexpected => Err(Refusal::Unexpected(spot)),
                Why::TooDeep => Err(Refusal::TooDeep(spot)),
            }
        }
    }
}

// Is this text grammatical? The lists have room for a token at each byte and one at the end.
fn answer_text(src: &[u8], kinds: &mut [u8], tape: &mut [u32]) -> Verdict
    requires { (length src.now < length kinds.old) × (length src.now < length tape.old) }
    ensures { verdict_of result ≡ judged src.now }
{
    let read = read_kinds(src, kinds);
    match read {
        Ok(n) => answer_tokens(src, kinds, n, tape),
        Err(Unread::TooLong) => Err(Refusal::TooLong),
        Err(Unread::Refused(refusal)) => match refusal.why {
            token::Why::NoToken => Err(Refusal::NoToken(refusal.spot)),
            token::Why::OutOfRange => Err(Refusal::OutOfRange(refusal.spot)),
        },
        // Never: the list has room.
        Err(Unread::Room(_)) => Err(Refusal::TooLong),
    }
}

// In lists with so much room. They are cleared before they are lent, so a short text gets short ones, in a frame of its own.
#[inline(never)]
fn answer_in<const ROOM: usize>(src: &[u8]) -> Verdict
    requires { (length src.now < ROOM) × (ROOM ≤ TEXT-LIMIT + 1) }
    ensures { verdict_of result ≡ judged src.now }
{
    let mut kinds = [0u8; ROOM];
    let mut tape = [0u32; ROOM];
    answer_text(src, &mut kinds, &mut tape)
}

const SHORT: usize = 1024 + 1;

const MIDDLING: usize = 8192 + 1;

const LONG: usize = TEXT_LIMIT + 1;

// Is this text grammatical?
pub fn grammatical(src: &[u8]) -> Verdict
    ensures { verdict_of result ≡ judged src.now }
{
    match src.len() {
        0..SHORT => answer_in::<SHORT>(src),
        SHORT..MIDDLING => answer_in::<MIDDLING>(src),
        MIDDLING..LONG => answer_in::<LONG>(src),
        _ => Err(Refusal::TooLong),
    }
}
