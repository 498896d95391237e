// What is said of a stop 2 or 3 of a source's run: where it is, the line, the operand as it is written, and its address.
#![tactic(auto, using(figures::proofs::Writing::then))]

ghost use Rattle.std.specs.Prelude.{◌≡◌};
ghost use Rattle.figures.specs.Writing.{Holds, Puts};
ghost use Rattle.halts.specs.Halts.{reason_for, wide_for, head_text, under_text, halt_text};

use figures::Text;
use spots::spot_at;

const UNDERLINED: usize = 39;

// Why an address is refused; `%` stands for it.
fn reason(stop: usize, opcode: u8) -> &'static [u8]
    ensures { result.now ≡ reason_for stop opcode }
{
    if stop == 3 {
        if opcode / 16 == 4 {
            return b" address % is no multiple of 2";
        }
        return b" address % is no multiple of 4";
    }
    if opcode % 16 < 3 {
        return b" address % is in no cell that may be written";
    }
    b" address % is in no data segment"
}

fn wide(from: usize, to: usize, text: &[u8]) -> usize
    ensures { result ≡ wide_for from to text.now }
{
    let size = to.saturating_sub(from).min(UNDERLINED) + 1;
    size.min(figures::part_length(figures::rest(text, from), b'\n'))
}

fn put_head(out: &mut Text, file: &[u8], stop: usize, line: usize, column: usize)
    ensures { Puts (head_text file.now stop line column) out.old out.new }
{
    excerpts::put_place(out, file, line, column);
    out.put_all(b": ");
    reports::put_stop(out, stop);
}

fn put_under(out: &mut Text, before: usize, wide: usize, address: usize, why: &[u8])
    ensures { Puts (under_text before wide address why.now) out.old out.new }
{
    out.put_times(b' ', before);
    out.put_times(b'^', wide);
    out.put_filled(why, address);
    out.put_all(b"\n");
}

// The whole message into lent room; how many bytes it has there.
// Kept: the number of a stop: it answers for any number, and a narrower type asks more of who calls.
pub fn stopped(
    out: &mut [u8],
    file: &[u8],
    stop: usize,
    from: usize,
    to: usize,
    address: usize,
    opcode: u8,
    text: &[u8],
) -> usize
    ensures { Holds out.old (halt_text file.now stop from to address opcode text.now) out.new result }
{
    let spot = spot_at(text, from);
    let why = reason(stop, opcode);
    let before = excerpts::shown_before(spot.column);
    let under = wide(from, to, text);
    let line = excerpts::shown_line(text, from, spot.column);
    let mut told = Text::new(out);
    put_head(&mut told, file, stop, spot.line, spot.column);
    excerpts::put_line(&mut told, line);
    put_under(&mut told, before, under, address, why);
    told.end()
}
