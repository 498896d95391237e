// Where a stored object text differs from what its source becomes: the first line that does, and what it is.
#![tactic(auto, using(figures::proofs::Writing::then))]

ghost use Rattle.std.specs.Prelude.{◌≡◌, ◌+◌, ◌≤◌, ◌<◌, ◌^◌, length, take, drop};
ghost use Rattle.figures.specs.Writing.{Holds, Puts};
ghost use Rattle.differences.specs.Differences.{caret_text, common as common_of, difference_at, difference_text, end_text, head_text, hint_text, kind_of, line_at, line_kind, lines_text, offset_text, about_text, shown_text};

use excerpts::put_visible;
use figures::{Text, byte, front, part, rest};

const NEWLINE: u8 = 10;

// At most so many bytes of a line are shown.
const SHOWN: usize = 100;

// How many bytes two texts begin with in common.
fn common(s: &[u8], t: &[u8]) -> usize
    ensures value { result ≡ common_of s.now t.now }
    ensures within { result ≤ length s.now }
{
    s.iter().zip(t).take_while(|(a, b)| a == b).count()
}

fn line_at(made: &[u8], stored: &[u8]) -> usize
    ensures { (result ≡ line_at made.now stored.now) × (result ≤ length made.now) }
{
    figures::part_count(front(made, common(made, stored)), NEWLINE)
}

// What a line is, by its second digit; `%` stands for the segment's number.
fn kind(b: u8) -> &'static [u8]
    ensures { result.now ≡ kind_of b }
{
    match b {
        b'1' => b"the head of the program",
        b'2' => b"the head of segment %",
        b'0' => b"contents of segment %",
        b'F' => b"the last line",
        _ => b"behind the last line",
    }
}

fn put_offset(text: &mut Text, line: &[u8])
    ensures { Puts (offset_text line.now) text.old text.new }
{
    if byte(line, 1) == b'0' {
        text.put_all(b" from offset #");
        text.put_all(front(rest(line, 4), 4));
    }
}

fn put_kind(text: &mut Text, line: &[u8])
    ensures { Puts (line_kind line.now) text.old text.new }
{
    let segment = figures::digit_of(byte(line, 3)).unwrap_or(16);
    text.put_filled(kind(byte(line, 1)), segment);
    put_offset(text, line);
}

fn put_end(text: &mut Text, ends: bool)
    ensures { Puts (end_text ends) text.old text.new }
{
    if ends {
        text.put_all(b", where the stored text ends\n");
    } else {
        text.put_all(b"\n");
    }
}

fn put_about(text: &mut Text, object: &[u8], line: usize, column: usize, source: &[u8])
    ensures { Puts (about_text object.now line column source.now) text.old text.new }
{
    excerpts::put_place(text, object, line, column);
    text.put_all(b": not what ");
    text.put_all(source);
    text.put_all(b" becomes: ");
}

fn put_shown(text: &mut Text, name: &[u8], line: &[u8])
    ensures { Puts (shown_text name.now line.now) text.old text.new }
{
    text.put_all(name);
    put_visible(text, front(line, SHOWN));
    text.put_all(b"\n");
}

fn put_caret(text: &mut Text, before: usize)
    requires { before < 2 ^ 63 }
    ensures { Puts (caret_text before) text.old text.new }
{
    text.put_times(b' ', 10 + before);
    text.put_all(b"^\n");
}

fn put_lines(text: &mut Text, was: &[u8], is: &[u8])
    ensures { Puts (lines_text was.now is.now) text.old text.new }
{
    put_shown(text, b"  stored  ", was);
    put_shown(text, b"  becomes ", is);
    put_caret(text, common(is, was));
}

fn put_head(
    text: &mut Text,
    source: &[u8],
    object: &[u8],
    line: usize,
    is: &[u8],
    was: &[u8],
    ends: bool,
)
    requires { line < 2 ^ 63 }
    ensures { Puts (head_text source.now object.now line is.now was.now ends) text.old text.new }
{
    let column = common(is, was) + 1;
    put_about(text, object, line + 1, column, source);
    put_kind(text, is);
    put_end(text, ends);
}

fn put_hint(text: &mut Text, stored: &[u8])
    ensures { Puts (hint_text stored.now) text.old text.new }
{
    if !stored.starts_with(b"01") {
        text.put_all(b"  an object text begins with 01: this is none, and may be a source\n");
    }
}

fn put_difference(
    text: &mut Text,
    source: &[u8],
    object: &[u8],
    made: &[u8],
    stored: &[u8],
    line: usize,
)
    requires { line < 2 ^ 63 }
    ensures { Puts (difference_at source.now object.now made.now stored.now line) text.old text.new }
{
    let is = part(made, NEWLINE, line);
    let was = part(stored, NEWLINE, line);
    let ends = stored.len() <= common(made, stored);
    put_head(text, source, object, line, is, was, ends);
    put_lines(text, was, is);
    put_hint(text, stored);
}

// What is said of two object texts that differ, with the names of source and object, into lent room; how many bytes it has there.
pub fn difference(out: &mut [u8], source: &[u8], object: &[u8], made: &[u8], stored: &[u8]) -> usize
    ensures { Holds out.old (difference_text source.now object.now made.now stored.now) out.new result }
{
    let line = line_at(made, stored);
    let mut text = Text::new(out);
    put_difference(&mut text, source, object, made, stored, line);
    text.end()
}
