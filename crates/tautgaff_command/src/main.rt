// The program `tautgaff`: the words that it is called with, to the command, whose answer is the exit status.
#![tactic(auto)]

use files::Host;
use saying::ExitStatus;
use std::alloc::AllocError;
use std::env::FillError;
use std::process::ExitCode;
use std::rt::Env;

// The room that a word gets at first; it is doubled for a longer one.
const WORD_ROOM: usize = 256;

// Puts the word with this number behind the others, ended by a zero byte, where it has room.
fn put_word<R: Host + Env>(
    rt: &R,
    words: &mut Vec<u8, R::A>,
    i: usize,
    room: usize,
) -> Result<Result<(), FillError>, AllocError> {
    let end = words.len();
    words.resize(end.saturating_add(room), 0u8)?;
    let put = rt.arg(i, &mut words.as_mut_slice()[end..]);
    match put {
        Ok(n) => {
            words.truncate(end.saturating_add(n));
            words.push(0u8)?;
            Ok(Ok(()))
        }
        Err(why) => {
            words.truncate(end);
            Ok(Err(why))
        }
    }
}

// Whether there is a word with this number, which then stands behind the others.
fn add_word<R: Host + Env>(
    rt: &R,
    words: &mut Vec<u8, R::A>,
    i: usize,
) -> Result<bool, AllocError> {
    let mut room = WORD_ROOM;
    for _ in 0..usize::BITS {
        match put_word(rt, words, i, room)? {
            Ok(()) => return Ok(true),
            Err(FillError::TooLong) => room = room.saturating_add(room),
            Err(FillError::NotPresent) => return Ok(false),
        }
    }
    Ok(false)
}

// All words but the program's own name.
// Kept: `env::args` refuses words that are not UTF-8, and a file's name may be such a word.
fn read_words<R: Host + Env>(rt: &R) -> Result<Vec<u8, R::A>, AllocError> {
    let mut words = Vec::new(rt.alloc());
    for i in 1..usize::MAX {
        if !add_word(rt, &mut words, i)? {
            break;
        }
    }
    Ok(words)
}

fn main(rt: HostRuntime) -> ExitCode {
    match read_words(&rt) {
        Ok(words) => ExitCode::from(tautgaff::tautgaff_main(&rt, words.as_slice()) as u8),
        Err(_) => {
            files::complain(&rt, b"tautgaff: no memory\n");
            ExitCode::from(u8::from(ExitStatus::Wrong))
        }
    }
}
