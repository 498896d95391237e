// The command: its words to an exit status.
#![tactic(auto)]

ghost use Rattle.std.specs.Prelude.{pos, ◌≤ℤ◌};

use files::Host;
use saying::ExitStatus;
use words::{Fault, Why, Wish};

// ── translate ──

fn translate_text<R: Host>(rt: &R, name: &[u8], text: &[u8], object: &[u8]) -> ExitStatus {
    let mut out = [0u8; files::OBJECT_ROOM];
    match sources::object(rt, name, text, &mut out) {
        Some(made) => saying::said(files::store(rt, object, made), ExitStatus::Done),
        None => ExitStatus::Refused,
    }
}

fn translate_file<R: Host>(rt: &R, name: &[u8], object: &[u8]) -> ExitStatus {
    let mut source = [0u8; files::SOURCE_ROOM];
    match files::load(rt, name, &mut source) {
        Some(text) => translate_text(rt, name, text, object),
        None => ExitStatus::Wrong,
    }
}

// ── check ──

fn check_file<R: Host>(rt: &R, name: &[u8]) -> ExitStatus {
    let mut source = [0u8; files::SOURCE_ROOM];
    match files::load(rt, name, &mut source) {
        Some(text) => sources::check(rt, name, text),
        None => ExitStatus::Wrong,
    }
}

fn check_files<R: Host>(rt: &R, words: &[u8]) -> ExitStatus {
    let count = figures::part_count(words, 0);
    let mut status = ExitStatus::Done;
    for n in 1..count {
        status = status.max(check_file(rt, figures::part(words, 0, n)));
    }
    status
}

// ── help ──

fn help_page<R: Host>(rt: &R, page: usize) -> ExitStatus {
    let mut out = [0u8; saying::MESSAGE_ROOM];
    let n = helping::put_page(&mut out, 0, page);
    saying::said(files::print(rt, figures::front(&out, n)), ExitStatus::Done)
}

fn help<R: Host>(rt: &R, words: &[u8], about: Option<usize>) -> ExitStatus {
    let Some(word) = about else {
        return help_page(rt, helping::USAGE);
    };
    match helping::page_of(figures::part(words, 0, word)) {
        Some(page) => help_page(rt, page),
        None => complain(
            rt,
            words,
            Fault {
                why: Why::NoPage,
                word,
            },
        ),
    }
}

// ── the command ──

fn complain<R: Host>(rt: &R, words: &[u8], fault: Fault) -> ExitStatus {
    saying::complain(rt, words, fault.word, fault.why.number())
}

fn translate_named<R: Host>(
    rt: &R,
    words: &[u8],
    file: usize,
    object: Option<usize>,
) -> ExitStatus {
    let name = figures::part(words, 0, file);
    match object {
        Some(word) => translate_file(rt, name, figures::part(words, 0, word)),
        None => translate_file(rt, name, b"-"),
    }
}

fn status<R: Host>(rt: &R, words: &[u8]) -> ExitStatus {
    match words::read(words) {
        Ok(Wish::Translate { file, object }) => translate_named(rt, words, file, object),
        Ok(Wish::Check) => check_files(rt, words),
        Ok(Wish::Run(run)) => running::run_file(rt, words, run),
        Ok(Wish::Same { file, object }) => comparing::compare_files(
            rt,
            figures::part(words, 0, file),
            figures::part(words, 0, object),
        ),
        Ok(Wish::Help { about }) => help(rt, words, about),
        Err(fault) => complain(rt, words, fault),
    }
}

// The words, each ended by a zero byte, to the exit status.
pub fn tautgaff_main<R: Host>(rt: &R, words: &[u8]) -> i32
    ensures least { pos 0 ≤ℤ result }
    ensures most { result ≤ℤ pos 255 }
{
    i32::from(u8::from(status(rt, words)))
}
