// The words of a command line, each ended by a zero byte, and what they wish for.
#![tactic(auto)]

ghost use Rattle.std.specs.Prelude.{◌≡◌, ◌-◌, ◌<◌, IfSome};
ghost use Rattle.std.specs.Option.{ok_or};
ghost use Rattle.words.specs.Wishes.{why_number, command_of, is_option, run_option, option_of, start_of, number_at, object_named, valued as valued_of};
ghost use Rattle.words.specs.Wishes.{opened as opened_of, named as named_of, taken as taken_of, taken_all, name_at, wish_for, wish_of, register_in};

use figures::same;

#[derive(Clone, Copy, PartialEq, Eq)]
pub enum Command {
    Translate,
    Check,
    Run,
    Same,
    Help,
}

// What an option waits for.
#[derive(Clone, Copy, PartialEq, Eq)]
pub enum Awaited {
    Object,
    Set,
    Show,
    Budget,
    Code,
}

// The reasons why a word is wrong, by the number of what is said of it.
#[derive(Clone, Copy, PartialEq, Eq)]
pub enum Why {
    UnknownCommand = 1,
    UnknownOption,
    TooMany,
    NoNumber,
    NoValue,
    NoName,
    BadValue,
    NoRegister,
    NoPage,
    NoCell,
    NoElement,
    NotShort,
    NotByte,
}

impl Why {
    // The number of what is said of it.
    pub fn number(self) -> usize
        ensures { result ≡ why_number self }
    {
        self as usize
    }
}

// Why a word is wrong, and which.
#[derive(Clone, Copy, PartialEq, Eq)]
pub struct Fault {
    pub why: Why,
    pub word: usize,
}

// The word that is the file's name; the budget and the code.
#[derive(Clone, Copy)]
pub struct Run {
    pub file: usize,
    pub budget: u32,
    pub code: u32,
}

// What is wished for. Files and what help is asked about are named by their words.
#[derive(Clone, Copy)]
pub enum Wish {
    Translate { file: usize, object: Option<usize> },
    Check,
    Run(Run),
    Same { file: usize, object: usize },
    Help { about: Option<usize> },
}

// What the words so far say: the names, what is waited for, the word of the object, the budget and the code.
#[derive(Clone, Copy)]
struct Said {
    command: Command,
    first: Option<usize>,
    second: Option<usize>,
    waiting: Option<Awaited>,
    object: Option<usize>,
    budget: u32,
    code: u32,
}

impl Command {
    pub fn named(s: &[u8]) -> Option<Command>
        ensures { result ≡ command_of s.now }
    {
        // Kept: a `match` on byte strings has a goal for each byte at which the names part, and none of the 40 closes.
        if same(s, b"translate") {
            return Some(Command::Translate);
        }
        if same(s, b"check") {
            return Some(Command::Check);
        }
        if same(s, b"run") {
            return Some(Command::Run);
        }
        if same(s, b"same") {
            return Some(Command::Same);
        }
        if same(s, b"help") | same(s, b"--help") {
            return Some(Command::Help);
        }
        None
    }
}

fn is_option(s: &[u8]) -> bool
    ensures { result ≡ is_option s.now }
{
    (figures::first(s) == b'-') & (1 < s.len())
}

// What an option of `run` waits for.
pub fn run_option(s: &[u8]) -> Option<Awaited>
    ensures { result ≡ run_option s.now }
{
    // Kept: a `match` on byte strings has a goal for each byte at which the names part, and none of them closes.
    if same(s, b"--set") {
        return Some(Awaited::Set);
    }
    if same(s, b"--show") {
        return Some(Awaited::Show);
    }
    if same(s, b"--budget") {
        return Some(Awaited::Budget);
    }
    if same(s, b"--cc") {
        return Some(Awaited::Code);
    }
    None
}

fn option(command: Command, s: &[u8]) -> Option<Awaited>
    ensures { result ≡ option_of command s.now }
{
    match command {
        Command::Translate if same(s, b"-o") => Some(Awaited::Object),
        Command::Run => run_option(s),
        _ => None,
    }
}

fn start(command: Command) -> Said
    ensures { result ≡ start_of command }
{
    Said {
        command,
        first: None,
        second: None,
        waiting: None,
        object: None,
        budget: 1000000,
        code: 0,
    }
}

fn number_at(n: usize, s: &[u8]) -> Result<u32, Fault>
    ensures { result ≡ number_at n s.now }
{
    figures::count(s).ok_or(Fault {
        why: Why::NoNumber,
        word: n,
    })
}

// One object is named.
fn object_named(said: Said, n: usize) -> Result<Said, Fault>
    ensures { result ≡ object_named said n }
{
    match said.object {
        None => Ok(Said {
            object: Some(n),
            ..said
        }),
        Some(_) => Err(Fault {
            why: Why::TooMany,
            word: n,
        }),
    }
}

// A word that an option waits for.
fn valued(said: Said, option: Awaited, n: usize, s: &[u8]) -> Result<Said, Fault>
    ensures { result ≡ valued_of said option n s.now }
{
    if is_option(s) {
        return Err(Fault {
            why: Why::NoValue,
            word: n,
        });
    }
    let done = Said {
        waiting: None,
        ..said
    };
    match option {
        Awaited::Object => object_named(done, n),
        Awaited::Set | Awaited::Show => Ok(done),
        Awaited::Budget => Ok(Said {
            budget: number_at(n, s)?,
            ..done
        }),
        Awaited::Code => Ok(Said {
            code: number_at(n, s)?,
            ..done
        }),
    }
}

fn opened(said: Said, n: usize, s: &[u8]) -> Result<Said, Fault>
    ensures { result ≡ opened_of said n s.now }
{
    let option = option(said.command, s).ok_or(Fault {
        why: Why::UnknownOption,
        word: n,
    })?;
    Ok(Said {
        waiting: Some(option),
        ..said
    })
}

fn named(said: Said, n: usize) -> Result<Said, Fault>
    ensures { result ≡ named_of said n }
{
    if said.first.is_none() {
        return Ok(Said {
            first: Some(n),
            ..said
        });
    }
    match said.command {
        Command::Check => Ok(said),
        Command::Same if said.second.is_none() => Ok(Said {
            second: Some(n),
            ..said
        }),
        _ => Err(Fault {
            why: Why::TooMany,
            word: n,
        }),
    }
}

// The word with the number n.
fn taken(said: Said, n: usize, s: &[u8]) -> Result<Said, Fault>
    ensures { result ≡ taken_of said n s.now }
{
    match said.waiting {
        Some(option) => valued(said, option, n, s),
        None if is_option(s) => opened(said, n, s),
        None => named(said, n),
    }
}

fn taken_all(words: &[u8], count: usize, command: Command) -> Result<Said, Fault>
    ensures { result ≡ taken_all words.now (count - 1) 1 (start_of command) }
{
    let mut said = start(command);
    for n in 1..count {
        said = taken(said, n, figures::part(words, 0, n))?;
    }
    Ok(said)
}

fn name_at(n: usize, name: Option<usize>) -> Result<usize, Fault>
    ensures { result ≡ name_at n name }
{
    name.ok_or(Fault {
        why: Why::NoName,
        word: n,
    })
}

// At the end of n words.
fn wish_for(n: usize, said: Said) -> Result<Wish, Fault>
    ensures { result ≡ wish_for n said }
{
    if said.waiting.is_some() {
        return Err(Fault {
            why: Why::NoValue,
            word: n,
        });
    }
    if said.command == Command::Help {
        return Ok(Wish::Help { about: said.first });
    }
    let file = name_at(n, said.first)?;
    match said.command {
        Command::Translate => Ok(Wish::Translate {
            file,
            object: said.object,
        }),
        Command::Run => Ok(Wish::Run(Run {
            file,
            budget: said.budget,
            code: said.code,
        })),
        Command::Same => Ok(Wish::Same {
            file,
            object: name_at(n, said.second)?,
        }),
        _ => Ok(Wish::Check),
    }
}

// What the words wish for.
pub fn read(words: &[u8]) -> Result<Wish, Fault>
    ensures { result ≡ wish_of words.now }
{
    let first = figures::part(words, 0, 0);
    let command = Command::named(first).ok_or(Fault {
        why: Why::UnknownCommand,
        word: 0,
    })?;
    let count = figures::part_count(words, 0);
    wish_for(count, taken_all(words, count, command)?)
}

// The register that a word names.
pub fn register(s: &[u8]) -> Option<usize>
    ensures { (result ≡ register_in s.now) × IfSome result (λ k. k < 16) }
{
    match s {
        [b'R', digit] => figures::digit_of(*digit),
        _ => None,
    }
}
