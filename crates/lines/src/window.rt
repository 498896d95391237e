// A window on an input that is longer than the room for it: what is still to be read stands between two places of the room.
ghost use Rattle.std.specs.Prelude.{◌≤◌, length};

use std::io::Read;

// Reads until the room is full, the input ends or a read fails: how many bytes.
fn read_full<F: Read>(input: &mut F, room: &mut [u8]) -> usize
    ensures { result ≤ length room.old }
{
    let mut done: usize = 0;
    while done < room.len() {
        let size = input.read(&mut room[done..]).unwrap_or(0);
        if size == 0 {
            return done;
        }
        done += size;
    }
    done
}

// Moves what is still to be read to the front and reads on behind it: where it ends now.
pub fn refill<F: Read>(input: &mut F, room: &mut [u8], from: usize, to: usize) -> usize
    requires { (from ≤ to) × (to ≤ length room.old) }
    ensures { result ≤ length room.old }
{
    room.copy_within(from..to, 0);
    let kept = to - from;
    kept + read_full(input, &mut room[kept..])
}

// Where what is still to be read begins and ends.
#[derive(Clone, Copy)]
pub struct Window {
    pub at: usize,
    pub to: usize,
}

// Reads on where fewer than `least` bytes are still to be read.
pub fn keep<F: Read>(input: &mut F, room: &mut [u8], at: usize, to: usize, least: usize) -> Window
    requires { (at ≤ to) × (to ≤ length room.old) }
    ensures { (result.at ≤ result.to) × (result.to ≤ length room.old) }
{
    if to - at < least {
        let end = refill(input, room, at, to);
        return Window { at: 0, to: end };
    }
    Window { at: at, to: to }
}

// The bytes of the first line with its newline, or all where there is none.
pub fn line(s: &[u8]) -> usize
    ensures { result ≤ length s.now }
{
    match s.iter().position(|b| *b == b'\n') {
        Some(end) => end + 1,
        None => s.len(),
    }
}
