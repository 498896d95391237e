// A place in a text as it is shown: line and column, the line, and the word there.
#![tactic(auto, using(figures::proofs::Writing::then, figures::proofs::Writing::still))]

ghost use Rattle.std.specs.Prelude.{◌≡◌, take};
ghost use Rattle.std.specs.List.{prefix_len};
ghost use Rattle.figures.specs.Parts.{first_part};
ghost use Rattle.figures.specs.Writing.{Puts};
ghost use Rattle.excerpts.specs.Lines.{shown_before, shown_line, visible as visible_of, visibles, in_word, word_of, word_at, wide_at, place_text, line_text};

use figures::Text;

const NEWLINE: u8 = 10;

const SHOWN_BEFORE: usize = 60;

const SHOWN: usize = 100;

const UNDERLINED: usize = 40;

pub fn shown_before(column: usize) -> usize
    ensures { result ≡ shown_before column }
{
    column.saturating_sub(1).min(SHOWN_BEFORE)
}

// The part of the line at the front that is shown.
fn shown(s: &[u8]) -> &[u8]
    ensures { result.now ≡ take 100 (first_part 10 s.now) }
{
    let size = figures::part_length(s, NEWLINE);
    figures::front(figures::front(s, size), SHOWN)
}

pub fn shown_line(text: &[u8], place: usize, column: usize) -> &[u8]
    ensures { result.now ≡ shown_line text.now place column }
{
    let before = shown_before(column);
    shown(figures::rest(text, place.saturating_sub(before)))
}

fn visible(b: u8) -> u8
    ensures { result ≡ visible_of b }
{
    match b {
        b' '..=b'~' => b,
        b'\t' => b' ',
        _ => b'?',
    }
}

pub fn put_visible(text: &mut Text, line: &[u8])
    ensures { Puts (visibles line.now) text.old text.new }
{
    for b in line {
        text.put(visible(*b));
    }
}

fn in_word(b: u8) -> bool
    ensures { result ≡ in_word b }
{
    matches!(b, b'A'..=b'Z' | b'0'..=b'9' | b'_' | b'#')
}

fn word_length(s: &[u8]) -> usize
    ensures { result ≡ prefix_len in_word s.now }
{
    s.iter().take_while(|b| in_word(**b)).count()
}

// The word or number at the front.
fn word(s: &[u8]) -> &[u8]
    ensures { result.now ≡ word_of s.now }
{
    figures::front(s, word_length(s).min(UNDERLINED))
}

pub fn word_at(text: &[u8], place: usize) -> &[u8]
    ensures { result.now ≡ word_at text.now place }
{
    word(figures::rest(text, place))
}

pub fn wide_at(text: &[u8], place: usize) -> usize
    ensures { result ≡ wide_at text.now place }
{
    word_at(text, place).len().max(1)
}

pub fn put_place(text: &mut Text, file: &[u8], line: usize, column: usize)
    ensures { Puts (place_text file.now line column) text.old text.new }
{
    text.put_all(file);
    text.put_all(b":");
    text.put_decimal(line);
    text.put_all(b":");
    text.put_decimal(column);
}

pub fn put_line(text: &mut Text, line: &[u8])
    ensures { Puts (line_text line.now) text.old text.new }
{
    put_visible(text, line);
    text.put_all(b"\n");
}
