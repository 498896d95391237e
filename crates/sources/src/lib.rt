// A source and the translator: its object text, or the refusal said; `tautgaff check`.
#![tactic(auto)]

use files::Host;
use saying::ExitStatus;

// The object text, at the front of the room; none where the source is refused, which has been said on standard error.
pub fn object<'a, R: Host>(
    rt: &R,
    name: &[u8],
    text: &[u8],
    room: &'a mut [u8],
) -> Option<&'a [u8]> {
    let answer = translate::translate(text, room);
    match answer {
        Ok(n) => Some(figures::front(room, n)),
        Err(refused) => {
            saying::refuse(rt, name, refused.number, refused.spot, text);
            None
        }
    }
}

fn tell_accepted<R: Host>(rt: &R, name: &[u8], size: usize) -> ExitStatus {
    let mut out = [0u8; saying::MESSAGE_ROOM];
    let n = messages::accepted(&mut out, name, size);
    saying::said(files::print(rt, figures::front(&out, n)), ExitStatus::Done)
}

// What the translator says of a text, on standard output.
pub fn check<R: Host>(rt: &R, name: &[u8], text: &[u8]) -> ExitStatus {
    let mut out = [0u8; files::OBJECT_ROOM];
    match translate::translate(text, &mut out) {
        Ok(n) => tell_accepted(rt, name, n),
        Err(refused) => saying::tell_refusal(rt, name, refused.number, refused.spot, text),
    }
}
