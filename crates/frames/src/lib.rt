// The writer of the object text: the frames of a segment, and of a whole object. Nothing is touched behind what is laid.
#![tactic(auto)]

ghost use Rattle.std.specs.Prelude.{◌≡◌, ◌++◌, ◌+◌, ◌*◌, ◌<◌, ◌≤◌, length};
ghost use Rattle.std.proofs.lemmas.List.Edits.{sets};
ghost use Rattle.objtext.specs.Object.{program, cells, hex_digit, hex, line, frame_bytes, content_frame, content_frames, frames_for, segment_frames, text_of, object_text, program_limit, data_limit, content_limit};
ghost use Rattle.objtext.specs.Reader.{line_length, frame_head_bytes, content_length};
ghost use Rattle.frames.specs.Frames.{later_data, frames_from, object_of, program_length, data_length, later_length, length_for};

use base::least;
use objtext::{
    BYTES_PLACE, DATA_HEAD, FRAME_BYTES, FRAME_HEAD_LINE, NEWLINE, PROGRAM_HEAD, content_length,
};

// "last line FF".
const LAST: [u8; 1] = [255];

const LAST_LINE: usize = 3;

// "Segment 1 begins with a table of four 4-byte entries": its cells are writable from there.
const TABLE_BYTES: usize = 16;

// "Capital hexadecimal".
const DIGITS: [u8; 16] = [
    48, 49, 50, 51, 52, 53, 54, 55, 56, 57, 65, 66, 67, 68, 69, 70,
];

fn digit(n: u8) -> u8
    requires { n < 16 }
    ensures { result ≡ hex_digit n }
{
    DIGITS[n as usize]
}

// Two digits a byte.
fn put_hex(out: &mut [u8], at: usize, bytes: &[u8])
    requires { at + 2 * length bytes.now ≤ length out.old }
    ensures { out.new ≡ sets out.old at (hex bytes.now) }
{
    for (i, b) in bytes.iter().enumerate() {
        out[at + 2 * i] = digit(*b / 16);
        out[at + 2 * i + 1] = digit(*b % 16);
    }
}

// "one frame a line, each ended by byte 10".
fn put_line(out: &mut [u8], at: usize, frame: &[u8])
    requires { at + (2 * length frame.now + 1) ≤ length out.old }
    ensures { out.new ≡ sets out.old at (line frame.now) }
{
    put_hex(out, at, frame);
    out[at + 2 * frame.len()] = NEWLINE;
}

// "Content: 00, number, offset (2 bytes), count, bytes".
fn put_frame(out: &mut [u8], at: usize, k: u8, o: usize, content: &[u8])
    requires { (length content.now ≤ frame_bytes) × (at + line_length (frame_head_bytes + length content.now) ≤ length out.old) }
    ensures { out.new ≡ sets out.old at (line (content_frame k o content.now)) }
{
    let head = [
        0u8,
        k,
        (o / 256 % 256) as u8,
        (o % 256) as u8,
        content.len() as u8,
    ];
    put_hex(out, at, &head);
    put_line(out, at + BYTES_PLACE, content);
}

// The frames of a segment's bytes; the place behind them.
fn put_content(out: &mut [u8], at: usize, k: u8, content: &[u8]) -> usize
    requires { (length content.now ≤ content_limit) × (at + content_length (length content.now) ≤ length out.old) }
    ensures { (result ≡ at + content_length (length content.now))
        × (out.new ≡ sets out.old at (text_of (content_frames (frames_for (length content.now)) k 0 content.now))) }
{
    let mut end = at;
    for m in 0..(content.len() + 15) / FRAME_BYTES {
        let from = FRAME_BYTES * m;
        let to = least(from + FRAME_BYTES, content.len());
        put_frame(out, end, k, from, &content[from..to]);
        end += 2 * (to - from) + FRAME_HEAD_LINE;
    }
    end
}

// A segment's head and, behind it, its content in frames; the place behind them.
fn put_segment(out: &mut [u8], at: usize, k: u8, head: &[u8], content: &[u8]) -> usize
    requires { (length content.now ≤ content_limit) × (at + (line_length (length head.now) + content_length (length content.now)) ≤ length out.old) }
    ensures { (result ≡ at + (line_length (length head.now) + content_length (length content.now)))
        × (out.new ≡ sets out.old at (line head.now ++ text_of (content_frames (frames_for (length content.now)) k 0 content.now))) }
{
    put_line(out, at, head);
    put_content(out, at + 2 * head.len() + 1, k, content)
}

// "Program head: 01, number, length (2 bytes)"; the place behind the segment's frames.
fn put_program(out: &mut [u8], at: usize, content: &[u8]) -> usize
    requires { (length content.now ≤ program_limit) × (at + program_length (length content.now) ≤ length out.old) }
    ensures { (result ≡ at + program_length (length content.now)) × (out.new ≡ sets out.old at (text_of (segment_frames 0 (program content.now)))) }
{
    let n = content.len();
    let head = [1u8, 0, (n / 256 % 256) as u8, (n % 256) as u8];
    put_segment(out, at, 0, &head, content)
}

// "Data head: 02, number, length, writable from, writable to".
fn put_data(out: &mut [u8], at: usize, k: u8, content: &[u8], from: usize, to: usize) -> usize
    requires { (length content.now ≤ data_limit) × (at + data_length (length content.now) ≤ length out.old) }
    ensures { (result ≡ at + data_length (length content.now)) × (out.new ≡ sets out.old at (text_of (segment_frames k (cells content.now from to)))) }
{
    let n = content.len();
    let head = [
        2u8,
        k,
        (n / 256 % 256) as u8,
        (n % 256) as u8,
        (from / 256 % 256) as u8,
        (from % 256) as u8,
        (to / 256 % 256) as u8,
        (to % 256) as u8,
    ];
    put_segment(out, at, k, &head, content)
}

// The segments of the base declarations.
// Kept: `bases` beside the contents, since the caller would make an enum of no, one or two contents out of it, and it would be taken apart here again.
fn put_later(out: &mut [u8], at: usize, bases: usize, second: &[u8], third: &[u8]) -> usize
    requires { (length second.now ≤ data_limit) × (length third.now ≤ data_limit) × (at + later_length bases (length second.now) (length third.now) ≤ length out.old) }
    ensures { (result ≡ at + later_length bases (length second.now) (length third.now))
        × (out.new ≡ sets out.old at (text_of (frames_from 2 (later_data bases second.now third.now)))) }
{
    if bases == 0 {
        return at;
    }
    let next = put_data(out, at, 2, second, 0, second.len());
    if bases == 1 {
        return next;
    }
    put_data(out, next, 3, third, 0, third.len())
}

// How long the text of an object is, by the lengths of its segments.
pub fn text_length(code: usize, first: usize, bases: usize, second: usize, third: usize) -> usize
    requires { (code ≤ program_limit) × (first ≤ data_limit) × (second ≤ data_limit) × (third ≤ data_limit) }
    ensures { result ≡ length_for code first bases second third }
{
    let two = PROGRAM_HEAD + content_length(code) + (DATA_HEAD + content_length(first));
    if bases == 0 {
        return two + LAST_LINE;
    }
    let three = two + (DATA_HEAD + content_length(second));
    if bases == 1 {
        return three + LAST_LINE;
    }
    three + (DATA_HEAD + content_length(third)) + LAST_LINE
}

// Lays the whole text at the front of a buffer that has room for it.
pub fn write_object(
    out: &mut [u8],
    code: &[u8],
    first: &[u8],
    to: usize,
    bases: usize,
    second: &[u8],
    third: &[u8],
)
    requires { (length code.now ≤ program_limit) × (length first.now ≤ data_limit) × (length second.now ≤ data_limit) × (length third.now ≤ data_limit)
        × (length_for (length code.now) (length first.now) bases (length second.now) (length third.now) ≤ length out.old) }
    ensures { out.new ≡ sets out.old 0 (object_text (object_of code.now first.now to bases second.now third.now)) }
{
    let data = put_program(out, 0, code);
    let later = put_data(out, data, 1, first, TABLE_BYTES, to);
    let last = put_later(out, later, bases, second, third);
    put_line(out, last, &LAST);
}
