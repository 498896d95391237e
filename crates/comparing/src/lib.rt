// `tautgaff same`: a source translated again, and the result held against a stored object text.
// A message with the names of two files.
#![tactic(auto)]

use files::Host;
use saying::ExitStatus;

const SAME_ROOM: usize = 12288;

fn tell_equal<R: Host>(rt: &R, source: &[u8], object: &[u8]) -> ExitStatus {
    let mut out = [0u8; SAME_ROOM];
    let n = messages::equal(&mut out, source, object);
    saying::said(files::print(rt, figures::front(&out, n)), ExitStatus::Done)
}

fn tell_different<R: Host>(
    rt: &R,
    source: &[u8],
    object: &[u8],
    made: &[u8],
    stored: &[u8],
) -> ExitStatus {
    let mut out = [0u8; SAME_ROOM];
    let n = differences::difference(&mut out, source, object, made, stored);
    saying::said(
        files::print(rt, figures::front(&out, n)),
        ExitStatus::Refused,
    )
}

fn tell_same<R: Host>(
    rt: &R,
    source: &[u8],
    object: &[u8],
    made: &[u8],
    stored: &[u8],
) -> ExitStatus {
    if made == stored {
        return tell_equal(rt, source, object);
    }
    tell_different(rt, source, object, made, stored)
}

fn compare_object<R: Host>(rt: &R, source: &[u8], object: &[u8], made: &[u8]) -> ExitStatus {
    let mut stored = [0u8; files::OBJECT_ROOM];
    match files::load(rt, object, &mut stored) {
        Some(stored) => tell_same(rt, source, object, made, stored),
        None => ExitStatus::Wrong,
    }
}

fn compare_text<R: Host>(rt: &R, source: &[u8], object: &[u8], text: &[u8]) -> ExitStatus {
    let mut out = [0u8; files::OBJECT_ROOM];
    match sources::object(rt, source, text, &mut out) {
        Some(made) => compare_object(rt, source, object, made),
        None => ExitStatus::Refused,
    }
}

pub fn compare_files<R: Host>(rt: &R, source: &[u8], object: &[u8]) -> ExitStatus {
    let mut text = [0u8; files::SOURCE_ROOM];
    match files::load(rt, source, &mut text) {
        Some(text) => compare_text(rt, source, object, text),
        None => ExitStatus::Wrong,
    }
}
