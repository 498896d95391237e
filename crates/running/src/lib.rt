// `tautgaff run`: an object text, or a source that is translated first, run from the registers and, of a source, the cells that `--set`
// gives; the report, and what `--show` asks for; and of a source where in it a stop at an operand is.
#![tactic(auto)]

use base::less;
use files::Host;
use runner::{Ran, Refusal, Stop};
use saying::ExitStatus;
use spots::unplaced;
use words::Fault;

const STORAGE: usize = machine::ROOM * machine::PAGES;

// Where the program lies.
const PROGRAM: usize = machine::ROOM;

// A stop at an operand, in the words of the source, if there is one.
fn tell_stop<R: Host>(
    rt: &R,
    name: &[u8],
    source: &[u8],
    stop: usize,
    counter: u32,
    regs: &[u32; 16],
    storage: &[u8],
) {
    let at = counter as usize;
    let Some(operand) = listing::look(source, 0, less(at, PROGRAM)).operand else {
        return;
    };
    let mut out = [0u8; saying::MESSAGE_ROOM];
    let n = halts::stopped(
        &mut out,
        name,
        stop,
        operand.from,
        operand.to,
        cells::address(regs, storage, counter),
        figures::byte(storage, at),
        source,
    );
    files::complain(rt, figures::front(&out, n));
}

// A word that is wrong, on standard error.
fn complain<R: Host>(rt: &R, words: &[u8], fault: Fault) -> ExitStatus {
    saying::complain(rt, words, fault.word, fault.why.number())
}

fn tell_run<R: Host>(
    rt: &R,
    words: &[u8],
    name: &[u8],
    source: &[u8],
    ran: Ran,
    storage: &[u8],
) -> ExitStatus {
    let mut out = [0u8; saying::MESSAGE_ROOM];
    let stop = ran.stop as usize;
    let regs = ran.regs;
    if matches!(ran.stop, Stop::Forbidden | Stop::Misaligned) {
        tell_stop(rt, name, source, stop, ran.counter, &regs, storage);
    }
    let n = reports::report(
        &mut out,
        stop,
        ran.counter as usize,
        ran.code as usize,
        ran.count as usize,
        &regs,
    );
    let end = cells::put_all_asked(&mut out, n, words, source, &regs, storage);
    saying::said(
        files::print(rt, figures::front(&out, end)),
        saying::status(stop),
    )
}

// The object text of a source, or one of none.
fn run_text<R: Host>(
    rt: &R,
    words: &[u8],
    run: words::Run,
    name: &[u8],
    source: &[u8],
    object: &[u8],
) -> ExitStatus {
    let regs = match settings::start(words, 0 < source.len()) {
        Ok(regs) => regs,
        Err(fault) => return complain(rt, words, fault),
    };
    let mut storage = [0u8; STORAGE];
    if let Some(fault) = cells::lay(source, words, &mut storage) {
        return complain(rt, words, fault);
    }
    let answer = cells::run_set(
        source,
        words,
        object,
        regs,
        run.code as u64,
        run.budget,
        &mut storage,
    );
    match answer {
        Ok(ran) => tell_run(rt, words, name, source, ran, &storage),
        Err(Refusal::NoObject) => saying::refuse(rt, name, 17, unplaced(0), object),
        Err(Refusal::BadCode) => {
            saying::refuse(rt, name, 18, unplaced(run.code as usize), object)
        }
        Err(Refusal::SmallStorage) => saying::refuse(rt, name, 19, unplaced(0), object),
    }
}

fn run_source<R: Host>(
    rt: &R,
    words: &[u8],
    run: words::Run,
    name: &[u8],
    text: &[u8],
) -> ExitStatus {
    let mut out = [0u8; files::OBJECT_ROOM];
    match sources::object(rt, name, text, &mut out) {
        Some(object) => run_text(rt, words, run, name, text, object),
        None => ExitStatus::Refused,
    }
}

// An object text begins with a digit, as no program does.
pub fn run_file<R: Host>(rt: &R, words: &[u8], run: words::Run) -> ExitStatus {
    let name = figures::part(words, 0, run.file);
    let mut room = [0u8; files::OBJECT_ROOM];
    match files::load(rt, name, &mut room) {
        Some(object @ [b'0', ..]) => run_text(rt, words, run, name, b"", object),
        Some(text) => run_source(rt, words, run, name, text),
        None => ExitStatus::Wrong,
    }
}
