// The report of a run: why it stopped, how far it came, what it left in the registers; and a value by its name.
#![tactic(auto, using(figures::proofs::Writing::then, figures::proofs::Writing::from_front))]

ghost use Rattle.std.specs.Prelude.{map};
ghost use Rattle.base.specs.Text.{bytes};
ghost use Rattle.figures.specs.Writing.{Holds, Puts};
ghost use Rattle.reports.specs.Reports.{stops, figure_text, register_text, registers_text, report_text, told_text, value_text};

use figures::{Text, entry};

// Why a run stopped, by the number of the stop.
const STOPS: [&[u8]; 5] = [
    b"the budget is used up",
    b"the program's end",
    b"a forbidden operand",
    b"a misaligned operand",
    b"no instruction to carry out",
];

// What a condition code says, and which conditions hold in it.
const CODES: [&[u8]; 4] = [
    b"zero, equal: =, <= and >= hold",
    b"negative, less: <, <= and ^= hold",
    b"positive, greater: >, >= and ^= hold",
    b"overflow: OVERFLOW holds, and no relation",
];

const REGISTERS: [&[u8]; 16] = [
    b"R0", b"R1", b"R2", b"R3", b"R4", b"R5", b"R6", b"R7", b"R8", b"R9", b"RA", b"RB", b"RC",
    b"RD", b"RE", b"RF",
];

fn put_told(text: &mut Text, name: &[u8], n: usize, meanings: &[&[u8]])
    ensures { Puts (told_text name.now n (map (λ m. m.now) meanings.now)) text.old text.new }
{
    text.put_all(name);
    text.put_decimal(n);
    text.put_all(b": ");
    text.put_all(entry(meanings, n));
    text.put_all(b"\n");
}

fn put_figure(text: &mut Text, name: &[u8], n: usize)
    ensures { Puts (figure_text name.now n) text.old text.new }
{
    text.put_all(name);
    text.put_decimal(n);
    text.put_all(b"\n");
}

// Why a run stopped, as a line.
// Kept: the number of a stop, here and in `report`, and of a code there: they answer for any number, and a narrower type asks more of who calls.
pub fn put_stop(text: &mut Text, stop: usize)
    ensures { Puts (told_text (bytes "stop ") stop stops) text.old text.new }
{
    put_told(text, b"stop ", stop, &STOPS);
}

// A value by its name, as a line.
pub fn put_value(text: &mut Text, name: &[u8], v: u32)
    ensures { Puts (value_text name.now v) text.old text.new }
{
    text.put_all(name);
    text.put_all(b" ");
    text.put_signed(v);
    text.put_all(b" #");
    text.put_hexadecimal(v);
    text.put_all(b"\n");
}

fn put_register(text: &mut Text, i: usize, v: u32)
    ensures { Puts (register_text i v) text.old text.new }
{
    put_value(text, entry(&REGISTERS, i), v);
}

fn put_registers(text: &mut Text, regs: &[u32])
    ensures { Puts (registers_text 0 regs.now) text.old text.new }
{
    for (i, v) in regs.iter().enumerate() {
        put_register(text, i, *v);
    }
}

// The whole report into lent room; how many bytes it has there.
pub fn report(
    out: &mut [u8],
    stop: usize,
    counter: usize,
    code: usize,
    count: usize,
    regs: &[u32],
) -> usize
    ensures { Holds out.old (report_text stop counter code count regs.now) out.new result }
{
    let mut text = Text::new(out);
    put_stop(&mut text, stop);
    put_figure(&mut text, b"count ", count);
    put_figure(&mut text, b"counter ", counter);
    put_told(&mut text, b"code ", code, &CODES);
    put_registers(&mut text, regs);
    text.end()
}
