// `tautgaff help`: which page a word asks for, and the page.
#![tactic(auto)]

ghost use Rattle.std.specs.Prelude.{◌≡◌};
ghost use Rattle.figures.specs.Writing.{Adds};
ghost use Rattle.helping.specs.Help.{known, page as page_text, page_for, page_of};

use figures::{Text, entry};
use words::Command;

mod pages;

// A page by its number; past the last one there is nothing.
// Kept: the room and where the text ends, with which docs/PROMISES.md gives `put_page`.
pub fn put_page(out: &mut [u8], at: usize, page: usize) -> usize
    ensures { Adds (page_text page) out.old at out.new result }
{
    let mut text = Text::up_to(out, at);
    text.put_all(entry(&pages::PAGES, page));
    text.end()
}

// The page of usage, behind those of the numbers; the commands' follow.
pub const USAGE: usize = 20;

fn known(n: u32) -> Option<usize>
    ensures { result ≡ known n }
{
    if n < 20 { Some(n as usize) } else { None }
}

fn page_for(command: Command) -> usize
    ensures { result ≡ page_for command }
{
    USAGE + 1 + command as usize
}

// The page that a word asks for.
pub fn page_of(word: &[u8]) -> Option<usize>
    ensures { result ≡ page_of word.now }
{
    match Command::named(word) {
        Some(command) => Some(page_for(command)),
        None => figures::count(word).and_then(known),
    }
}
