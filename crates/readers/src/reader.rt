// A reader of tokens, and the tape on which it writes what it has read.
ghost use Rattle.std.specs.Prelude.{◌≡◌, ◌+◌, ◌≤◌, ◌<◌, length, set};
ghost use Rattle.tape.specs.Events.{EVENTS, TOKEN-LIMIT};
ghost use Rattle.tape.specs.Tape.{event};
ghost use Rattle.readers.specs.Kinds.{Kind};

use crate::events;
use crate::tokens::Why;
use token::kinds;

// What was read, or why the token at which the reader stands is refused.
pub type Answer<T = ()> = Result<T, Why>;

// `at` is the next token, and `events` where the next event of the tape goes: there are never more events than tokens.
#[derive(Drop)]
pub struct Reader<'a> {
    pub kinds: &'a [u8],
    pub tape: &'a mut [u32],
    pub at: usize,
    pub events: usize,
    pub ghost inside: { at ≤ length kinds.now },
    pub ghost low: { events ≤ at },
    pub ghost room: { length kinds.now ≤ length tape.now },
    pub ghost small: { length kinds.now < TOKEN-LIMIT },
}

// Past the last token the kind is 0, that of the end.
fn kind_at(kinds: &[u8], i: usize) -> u8
    requires { i ≤ length kinds.now }
    ensures { Kind kinds.now i result }
{
    if i < kinds.len() { kinds[i] } else { 0 }
}

impl Reader<'_> {
    ghost use Rattle.grammar.specs.Grammar.{in_parens};
    ghost use Rattle.grammar.specs.Reader.{want};
    ghost use Rattle.readers.specs.Reads.{Moved, Took, Still, Pushed, Skipped, Put};

    pub fn at(&self) -> usize
        ensures { result ≡ self.now.at }
    {
        self.at
    }

    // The kind of the next token.
    pub fn kind(&self) -> u8
        ensures { Kind self.now.kinds.now self.now.at result }
    {
        kind_at(self.kinds, self.at)
    }

    // The kind of the token behind the next.
    pub fn kind_behind(&self) -> u8
        requires { self.now.at < length self.now.kinds.now }
        ensures { Kind self.now.kinds.now (self.now.at + 1) result }
    {
        kind_at(self.kinds, self.at + 1)
    }

    // The next token, of whatever kind.
    pub fn take(&mut self) -> usize
        requires { self.old.at < length self.old.kinds.now }
        ensures token { result ≡ self.old.at }
        ensures moved { Moved self.old (self.old.at + 1) self.new }
    {
        let token = self.at;
        self.at += 1;
        token
    }

    // Back to an earlier token, behind which nothing was written.
    pub fn back(&mut self, at: usize)
        requires { (self.old.events ≤ at) × (at ≤ self.old.at) }
        ensures { Moved self.old at self.new }
    {
        self.at = at;
    }

    // A token of kind k; any other has no place here.
    pub fn wanted(&mut self, k: u8) -> Answer<usize>
        requires { 0 < k }
        ensures read { Took (want k) self.old self.new result }
        ensures still { Still self.old self.new }
    {
        if self.kind() != k {
            return Err(Why::Unexpected);
        }
        Ok(self.take())
    }

    // A token of kind k in parentheses.
    pub fn in_parens(&mut self, k: u8) -> Answer<usize>
        requires { 0 < k }
        ensures read { Took (in_parens k) self.old self.new result }
        ensures still { Still self.old self.new }
    {
        self.wanted(kinds::OPEN)?;
        let token = self.wanted(k)?;
        self.wanted(kinds::CLOSE)?;
        Ok(token)
    }

    // Writes the event of this kind at this token.
    pub fn write(&mut self, op: u32, token: usize)
        requires { (self.old.events < self.old.at) × ((op < EVENTS) × (token < TOKEN-LIMIT)) }
        ensures { Pushed (event op token) self.old self.new }
    {
        events::write(self.tape, self.events, op, token);
        self.events += 1;
    }

    // Leaves room for an event, whose place is answered.
    pub fn skip(&mut self) -> usize
        requires { self.old.events < self.old.at }
        ensures place { result ≡ self.old.events }
        ensures skipped { Skipped self.old self.new }
    {
        let place = self.events;
        self.events += 1;
        place
    }

    // Puts at a place that was skipped the event of this kind at this token.
    pub fn put(&mut self, place: usize, op: u32, token: usize)
        requires { (place < length self.old.tape.now) × ((op < EVENTS) × (token < TOKEN-LIMIT)) }
        ensures { Put place (event op token) self.old self.new }
    {
        events::put(self.tape, place, op, token);
    }
}
