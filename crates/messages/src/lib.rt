// What is said of a refusal: where it is, the line that it stands in, and why.
#![tactic(auto, using(figures::proofs::Writing::then))]

ghost use Rattle.std.specs.Prelude.{◌≡◌, ◌+◌, ◌-◌, ◌≤◌, ◌<◌, length, take, drop, get_or, eqb};
ghost use Rattle.figures.specs.Writing.{Holds, Puts};
ghost use Rattle.base.specs.Runs.{run_len};
ghost use Rattle.base.specs.Choose.{choose};
ghost use Rattle.figures.specs.Parts.{first_part};
ghost use Rattle.messages.specs.Messages.{byte_headline, register_headline, headline as headline_of, register_note, byte_note, note_for, figure_for};
ghost use Rattle.messages.specs.Messages.{register_at, headline_at, figure_at, note_at, head_text, caret_text, first_line, other_lines, message_text};
ghost use Rattle.messages.specs.Messages.{accepted_text, equal_text, fault_text};

use figures::{Text, entry};
use spots::Spot;

// What is refused, by its number; from 20 on what is told more closely.
const HEADLINES: [&[u8]; 28] = [
    b"",
    b"the source has more than 32,768 bytes",
    b"byte % is in no token",
    b"the number is out of range",
    b"no program goes on like this",
    b"more than 64 constructs inside each other",
    b"this name is not declared, or this label is not set",
    b"this is declared twice",
    b"this does not fit here",
    b"this register cannot stand here",
    b"a protected register is written here",
    b"the value is out of bounds",
    b"there is no room for this in its segment",
    b"too many names",
    b"the program has more than 4,096 bytes",
    b"there is no room for the literals",
    b"the object text has % bytes, more than there is room for",
    b"this is no object text",
    b"% is no condition code",
    b"there is too little storage",
    b"byte 13 (CR) is in no token",
    b"byte 9 (TAB) is in no token",
    b"byte 239 begins a byte-order mark and is in no token",
    b"byte % (a small letter) is in no token",
    b"this comment is not closed",
    b"the text ends before the program does",
    b"register % is protected here",
    b"the register below the target is protected here",
];

// What stands behind the carets.
const NOTES: [&[u8]; 31] = [
    b"",
    b"",
    b"",
    b"",
    b" the tokens up to this one begin no program",
    b" inside 64 others already",
    b" no block around it declares it before this place",
    b" the block has it already; the first 10 characters count",
    b" see `tautgaff help 8` for what fits where",
    b" 0 to 15; not 0 as base, return, index, shift or in CASE; a product needs an odd target",
    b" by this statement, call or base declaration",
    b" see `tautgaff help 11` for the bounds",
    b" a segment has 4,096 bytes; two base declarations are allowed",
    b" 256 names and 256 labels are allowed",
    b"",
    b"",
    b"",
    b"",
    b"",
    b"",
    b" lines are ended by byte 10 alone",
    b" only blanks and newlines stand between tokens",
    b" the text has to be saved without it",
    b" names and words are written in capitals",
    b" a comment runs to the next `;`",
    b" every block is ended by END, the program by @",
    b" the data base: cells without SEGMENT BASE belong to it",
    b" the program base: instructions are found by it",
    b" from 0 to 2147483647; after _, which is minus, to 2147483648; after # 32 bits",
    b" a product also writes the register below its target",
    b" a base or the return register of what is around this place",
];

// Why a word of the command line is wrong.
const FAULTS: [&[u8]; 14] = [
    b"",
    b"there is no such command",
    b"this command has no such option",
    b"there is one name too many",
    b"this is no number from 0 to 4294967295",
    b"the option needs a value",
    b"a name is missing",
    b"this is no value: decimal, with _ or - in front, or # and hexadecimal digits",
    b"this names no register: R0 to R9, RA to RF",
    b"there is no help on this: a command, or a number from 0 to 19",
    b"this names no register, and the text declares no cell of this name",
    b"this is no element: the number is a byte offset in an array, a multiple of its element size",
    b"this is no value for a SHORT cell: -32768 to 65535",
    b"this is no value for a BYTE or CHARACTER cell: 0 to 255",
];

// ── what is said ──

fn byte_headline(b: u8) -> usize
    ensures { result ≡ byte_headline b }
{
    match b {
        b'\r' => 20,
        b'\t' => 21,
        239 => 22,
        b'a'..=b'z' => 23,
        b'C' => 24,
        _ => 2,
    }
}

fn register_headline(register: usize, b: u8) -> usize
    ensures { result ≡ register_headline register b }
{
    match register {
        0..=15 => 26,
        _ if b == b'*' => 27,
        _ => 10,
    }
}

// Kept: numbers of headlines and notes, since a refusal's own number is that of its headline, and the definition `headline_of` gives one for every number.
fn headline(number: usize, b: u8, register: usize, ends: bool) -> usize
    ensures { result ≡ headline_of number b register ends }
{
    match number {
        2 => byte_headline(b),
        10 => register_headline(register, b),
        4 if ends => 25,
        _ => number,
    }
}

fn register_note(register: usize, b: u8) -> usize
    ensures { result ≡ register_note register b }
{
    match register {
        14 => 26,
        15 => 27,
        0..=15 => 30,
        _ if b == b'*' => 29,
        _ => 10,
    }
}

fn byte_note(b: u8) -> usize
    ensures { result ≡ byte_note b }
{
    match byte_headline(b) {
        2 => 0,
        k => k,
    }
}

fn note(number: usize, b: u8, register: usize, ends: bool) -> usize
    ensures { result ≡ note_for number b register ends }
{
    match number {
        2 => byte_note(b),
        3 => 28,
        4 if ends => 25,
        10 => register_note(register, b),
        _ => number,
    }
}

fn figure(number: usize, b: u8, register: usize, place: usize) -> usize
    ensures { result ≡ figure_for number b register place }
{
    match number {
        2 => usize::from(b),
        10 => register,
        _ => place,
    }
}

// ── at a place ──

fn register_at(text: &[u8], place: usize) -> usize
    ensures { result ≡ register_at text.now place }
{
    words::register(excerpts::word_at(text, place)).unwrap_or(16)
}

// Kept: beside `figure_at` and `note_at`: they read the same three facts, and a closure for the last step would be no plainer than three names.
fn headline_at(number: usize, text: &[u8], place: usize) -> usize
    ensures { result ≡ headline_at number text.now place }
{
    let b = figures::byte(text, place);
    let register = register_at(text, place);
    headline(number, b, register, text.len() <= place)
}

fn figure_at(number: usize, text: &[u8], place: usize) -> usize
    ensures { result ≡ figure_at number text.now place }
{
    let b = figures::byte(text, place);
    let register = register_at(text, place);
    figure(number, b, register, place)
}

fn note_at(number: usize, text: &[u8], place: usize) -> usize
    ensures { result ≡ note_at number text.now place }
{
    let b = figures::byte(text, place);
    let register = register_at(text, place);
    note(number, b, register, text.len() <= place)
}

// ── the message ──

fn put_head(out: &mut Text, number: usize, k: usize, n: usize)
    ensures { Puts (head_text number k n) out.old out.new }
{
    out.put_all(b": refusal ");
    out.put_decimal(number);
    out.put_all(b": ");
    out.put_filled(entry(&HEADLINES, k), n);
    out.put_all(b"\n");
}

fn put_carets(out: &mut Text, before: usize, wide: usize, k: usize)
    ensures { Puts (caret_text before wide k) out.old out.new }
{
    out.put_times(b' ', before);
    out.put_times(b'^', wide);
    out.put_all(entry(&NOTES, k));
    out.put_all(b"\n");
}

fn put_first(out: &mut Text, file: &[u8], number: usize, spot: Spot, text: &[u8])
    ensures { Puts (first_line file.now number spot text.now) out.old out.new }
{
    let k = headline_at(number, text, spot.place);
    let n = figure_at(number, text, spot.place);
    excerpts::put_place(out, file, spot.line, spot.column);
    put_head(out, number, k, n);
}

fn put_others(out: &mut Text, number: usize, spot: Spot, text: &[u8])
    ensures { Puts (other_lines number spot text.now) out.old out.new }
{
    let before = excerpts::shown_before(spot.column);
    let wide = excerpts::wide_at(text, spot.place);
    let k = note_at(number, text, spot.place);
    excerpts::put_line(out, excerpts::shown_line(text, spot.place, spot.column));
    put_carets(out, before, wide, k);
}

fn put_message(out: &mut Text, file: &[u8], number: usize, spot: Spot, text: &[u8])
    ensures { Puts (message_text file.now number spot text.now) out.old out.new }
{
    if spot.line == 0 {
        out.put_all(file);
        put_head(out, number, number, spot.place);
    } else {
        put_first(out, file, number, spot, text);
        put_others(out, number, spot, text);
    }
}

// The message of a refusal, where the translator says that it stands.
// Kept: the number of a refusal, and of a fault in `fault`: they answer for any number, and a narrower type asks more of who calls.
pub fn message(out: &mut [u8], file: &[u8], number: usize, spot: Spot, text: &[u8]) -> usize
    ensures { Holds out.old (message_text file.now number spot text.now) out.new result }
{
    let mut told = Text::new(out);
    put_message(&mut told, file, number, spot, text);
    told.end()
}

// What is said of a file that is accepted.
pub fn accepted(out: &mut [u8], file: &[u8], size: usize) -> usize
    ensures { Holds out.old (accepted_text file.now size) out.new result }
{
    let mut told = Text::new(out);
    told.put_all(file);
    told.put_all(b": accepted, ");
    told.put_decimal(size);
    told.put_all(b" bytes of object text\n");
    told.end()
}

// What is said of an object text that its source becomes.
pub fn equal(out: &mut [u8], source: &[u8], object: &[u8]) -> usize
    ensures { Holds out.old (equal_text source.now object.now) out.new result }
{
    let mut told = Text::new(out);
    told.put_all(object);
    told.put_all(b": the object text of ");
    told.put_all(source);
    told.put_all(b"\n");
    told.end()
}

// What is said of a word that is wrong.
pub fn fault(out: &mut [u8], word: &[u8], why: usize) -> usize
    ensures { Holds out.old (fault_text word.now why) out.new result }
{
    let mut told = Text::new(out);
    told.put_all(b"tautgaff: `");
    told.put_all(word);
    told.put_all(b"`: ");
    told.put_all(entry(&FAULTS, why));
    told.put_all(b"\n");
    told.end()
}
