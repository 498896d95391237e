// What `--set` and `--show` say of the cells of a source: an element by its name, its value laid into storage when the program is loaded, and told when it has
// run; and the address of the operand at which a run stopped.
#![tactic(auto)]

ghost use Rattle.std.specs.Prelude.{◌≡◌, List, ℕ, ◌+◌, ◌*◌, ◌/◌, ◌%◌, ◌<◌, ◌≤◌, length, get_or};
ghost use Rattle.figures.specs.Writing.{Adds, Puts};
ghost use Rattle.objtext.specs.Reader.{read_as, read_object};
ghost use Rattle.machine.specs.Instructions.{long_kind};
ghost use Rattle.machine.specs.Step.{cpu, address as address_of, extended as extended_of, index_of};
ghost use Rattle.machine.specs.Operands.{operand_address};
ghost use Rattle.runner.specs.Runner.{outcome};
ghost use Rattle.cells.specs.Elements.{asked_by, asked_in, is_inside, is_element, placed_at, element_of, element_named};
ghost use Rattle.cells.specs.Setting.{faulted as faulted_of, laying_of, laid, fits as fits_of, unfit as unfit_of, put_cell, set_number, set_word, show_word, lay_word, laid_by};
ghost use Rattle.cells.specs.Showing.{held_in, more_text, cell_text, name_text, asked_text, all_asked};
ghost use Rattle.cells.specs.Running.{run_set};

use figures::Text;
use listing::Site;
use runner::{Ran, Refusal};
use token::kinds;
use words::{Awaited, Fault, Why};

// ── elements ──

// NAME or NAME(NUMBER).
#[derive(Clone, Copy)]
pub struct Asked {
    pub key: u64,
    pub subscript: Option<u64>,
}

fn asked_by(kinds: &[u8; 5], values: &[u64; 5]) -> Option<Asked>
    ensures { result ≡ asked_by kinds.now values.now }
{
    let is_name = kinds[0] == kinds::NAME;
    let is_alone = kinds[1] == kinds::END_OF_TEXT;
    if is_name & is_alone {
        return Some(Asked {
            key: values[0],
            subscript: None,
        });
    }
    let is_numbered = (kinds[1] == kinds::OPEN)
        & ((kinds[2] == kinds::NUMBER)
            & ((kinds[3] == kinds::CLOSE) & (kinds[4] == kinds::END_OF_TEXT)));
    if is_name & is_numbered {
        return Some(Asked {
            key: values[0],
            subscript: Some(values[2]),
        });
    }
    None
}

// Kept: token_lists::tokens_of, whose lists C lends, fills five.
fn asked_in(word: &[u8]) -> Option<Asked>
    ensures { result ≡ asked_in word.now }
{
    let mut kinds = [0u8; 5];
    let mut values = [0u64; 5];
    let mut places = [0u32; 5];
    let mut lines = [0u32; 5];
    let mut columns = [0u32; 5];
    // What was laid says all that is asked.
    let _ = token_lists::tokens_of(
        word,
        &mut kinds,
        &mut values,
        &mut places,
        &mut lines,
        &mut columns,
    );
    asked_by(&kinds, &values)
}

// Where an element lies in storage, and its size. There may be more cells of the name.
#[derive(Clone, Copy)]
pub struct Element {
    pub address: u32,
    pub size: u32,
    pub more: bool,
}

fn is_inside(s: Site, v: u64) -> bool
    ensures { result ≡ is_inside s v }
{
    let size = s.size as u64;
    let elements = s.elements as u64;
    if size == 0 {
        return false;
    }
    (v % size == 0) & (v / size < elements)
}

fn is_element(s: Site, a: Asked) -> bool
    ensures { result ≡ is_element s a }
{
    (s.array | a.subscript.is_none()) & is_inside(s, a.subscript.unwrap_or(0))
}

// "Segment k goes to 4096·(k+1)".
const PAGE: u64 = machine::ROOM as u64;

fn placed_at(s: Site, v: u64) -> Result<Element, Why>
    ensures { result ≡ placed_at s v }
{
    let segment = s.segment as u64;
    let offset = s.offset;
    if 3 < segment {
        return Err(Why::NoElement);
    }
    if PAGE < offset {
        return Err(Why::NoElement);
    }
    if PAGE < v {
        return Err(Why::NoElement);
    }
    Ok(Element {
        address: (PAGE * (segment + 1) + (offset + v)) as u32,
        size: s.size,
        more: s.more,
    })
}

#[tactic(auto, unfolding(crate::specs::Elements::element_of))]
fn element_of(s: Site, a: Asked) -> Result<Element, Why>
    ensures { result ≡ element_of s a }
{
    if is_element(s, a) {
        return placed_at(s, a.subscript.unwrap_or(0));
    }
    Err(Why::NoElement)
}

#[tactic(auto, unfolding(crate::specs::Elements::element_named))]
pub fn element_named(source: &[u8], word: &[u8]) -> Result<Element, Why>
    ensures { result ≡ element_named source.now word.now }
{
    let a = asked_in(word).ok_or(Why::NoCell)?;
    let site = listing::cell(source, a.key).ok_or(Why::NoCell)?;
    element_of(site, a)
}

// ── set ──

// The first fault, by how the word n went.
fn faulted(x: Option<Fault>, n: usize, how: Result<(), Why>) -> Option<Fault>
    ensures { result ≡ faulted_of x n how }
{
    x.or(how.err().map(|why| Fault { why, word: n }))
}

#[tactic(auto, unfolding(crate::specs::Setting::fits))]
fn fits(size: u32, v: u32) -> bool
    ensures { result ≡ fits_of size v }
{
    if size == 2 {
        if 2147483648 <= v {
            return 4294934528 <= v;
        }
        return v <= 65535;
    }
    if size == 1 {
        return v <= 255;
    }
    true
}

// Why a value does not fit.
fn unfit(size: u32) -> Why
    ensures { result ≡ unfit_of size }
{
    if size == 1 {
        return Why::NotByte;
    }
    Why::NotShort
}

#[tactic(auto, unfolding(crate::specs::Setting::put_cell))]
fn put_cell(store: &mut [u8], e: Element, v: u32)
    ensures { store.new ≡ put_cell e v store.old }
{
    let at = e.address as usize;
    let size = e.size as usize;
    if store.len() < at + size {
        return;
    }
    base::store(store, at, size, v);
}

#[tactic(auto, unfolding(crate::specs::Setting::set_number))]
fn set_number(store: &mut [u8], e: Element, v: u32) -> Result<(), Why>
    ensures { laid store.new result ≡ set_number e v store.old }
{
    if fits(e.size, v) {
        put_cell(store, e, v);
        return Ok(());
    }
    Err(unfit(e.size))
}

// NAME=VALUE.
#[tactic(auto, unfolding(crate::specs::Setting::set_word))]
fn set_word(source: &[u8], s: &[u8], store: &mut [u8]) -> Result<(), Why>
    ensures { laid store.new result ≡ set_word source.now s.now store.old }
{
    let size = figures::part_length(s, b'=');
    let name = figures::front(s, size);
    if words::register(name).is_some() {
        return Ok(());
    }
    let e = element_named(source, name)?;
    let found = figures::number(figures::rest(figures::rest(s, size), 1));
    let v = found.ok_or(Why::BadValue)?;
    set_number(store, e, v)
}

// NAME.
#[tactic(auto, unfolding(crate::specs::Setting::show_word))]
fn show_word(source: &[u8], s: &[u8]) -> Result<(), Why>
    ensures { result ≡ show_word source.now s.now }
{
    if words::register(s).is_some() {
        return Ok(());
    }
    element_named(source, s)?;
    Ok(())
}

// The word behind an option.
fn lay_word(source: &[u8], option: Option<Awaited>, s: &[u8], store: &mut [u8]) -> Result<(), Why>
    ensures { laid store.new result ≡ lay_word source.now option s.now store.old }
{
    match option {
        Some(Awaited::Set) => set_word(source, s, store),
        Some(Awaited::Show) => show_word(source, s),
        _ => Ok(()),
    }
}

// Lays the cells that the words set; the first word that is wrong.
pub fn lay(source: &[u8], words: &[u8], store: &mut [u8]) -> Option<Fault>
    ensures { laying_of store.new result ≡ laid_by source.now words.now store.old }
{
    let count = figures::part_count(words, 0);
    let mut x = None;
    for n in 1..count {
        let option = words::run_option(figures::part(words, 0, n - 1));
        let how = lay_word(source, option, figures::part(words, 0, n), store);
        x = faulted(x, n, how);
    }
    x
}

// ── show ──

fn extended(n: usize, v: u32) -> u32
    requires { n ≡ 2 → v < 65536 }
    ensures { result ≡ extended_of n v }
{
    if n == 2 {
        if v < 32768 {
            return v;
        }
        return v + 4294901760;
    }
    v
}

// What an element holds, as an instruction would read it.
#[tactic(auto, unfolding(crate::specs::Showing::held_in))]
fn held(store: &[u8], e: Element) -> u32
    ensures { result ≡ held_in e store.now }
{
    let at = e.address as usize;
    let size = e.size as usize;
    if size <= 4 {
        if at + size <= store.len() {
            return extended(size, base::load(store, at, size));
        }
        return 0;
    }
    0
}

#[tactic(auto, unfolding(crate::specs::Showing::more_text), using(figures::proofs::Writing::still))]
fn put_more(text: &mut Text, more: bool)
    ensures { Puts (more_text more) text.old text.new }
{
    if more {
        text.put_all(b"  the first of several cells of this name\n");
    }
}

#[tactic(auto, unfolding(crate::specs::Showing::cell_text), using(figures::proofs::Writing::then))]
fn put_cell_line(text: &mut Text, name: &[u8], e: Element, store: &[u8])
    ensures { Puts (cell_text name.now e store.now) text.old text.new }
{
    reports::put_value(text, name, held(store, e));
    put_more(text, e.more);
}

#[tactic(auto, unfolding(crate::specs::Showing::name_text), using(figures::proofs::Writing::still))]
fn put_name(text: &mut Text, name: &[u8], source: &[u8], regs: &[u32; 16], store: &[u8])
    ensures { Puts (name_text source.now regs.now store.now name.now) text.old text.new }
{
    if let Some(k) = words::register(name) {
        return reports::put_value(text, name, regs[k]);
    }
    if let Ok(e) = element_named(source, name) {
        put_cell_line(text, name, e, store);
    }
}

#[tactic(auto, using(figures::proofs::Writing::still))]
fn put_asked(
    text: &mut Text,
    option: Option<Awaited>,
    name: &[u8],
    source: &[u8],
    regs: &[u32; 16],
    store: &[u8],
)
    ensures { Puts (asked_text source.now regs.now store.now option name.now) text.old text.new }
{
    if let Some(Awaited::Show) = option {
        put_name(text, name, source, regs, store);
    }
}

// What `--show` asks for.
// Kept: the room and where the text ends, with which docs/PROMISES.md gives `put_all_asked`.
pub fn put_all_asked(
    out: &mut [u8],
    at: usize,
    words: &[u8],
    source: &[u8],
    regs: &[u32; 16],
    store: &[u8],
) -> usize
    ensures { Adds (all_asked source.now regs.now store.now words.now) out.old at out.new result }
{
    let count = figures::part_count(words, 0);
    let mut text = Text::up_to(out, at);
    for n in 1..count {
        let option = words::run_option(figures::part(words, 0, n - 1));
        let name = figures::part(words, 0, n);
        put_asked(&mut text, option, name, source, regs, store);
    }
    text.end()
}

// ── run ──

// Storage of five pages.
const NEEDED: usize = machine::ROOM * machine::PAGES;

// An object text whose cells are set when it is loaded.
pub fn run_set(
    source: &[u8],
    words: &[u8],
    object: &[u8],
    regs: [u32; 16],
    code: u64,
    budget: u32,
    store: &mut [u8],
) -> Result<Ran, Refusal>
    ensures { outcome result regs code store.new ≡ run_set source.now words.now object.now regs code budget store.old }
{
    let Some(count) = objtext::read(object) else {
        return runner::run_object(object, regs, code, budget, store);
    };
    if 3 < code {
        return runner::run_object(object, regs, code, budget, store);
    }
    if store.len() < NEEDED {
        return runner::run_object(object, regs, code, budget, store);
    }
    runner::load(object, count, store);
    lay(source, words, store);
    Ok(runner::started(object, count, regs, code, budget, store))
}

// ── the operand at which a run stopped ──

fn wide(b: u8) -> usize
    ensures { (result ≡ b) × (result < 256) }
{
    b as usize
}

// The register by which an instruction indexes, if it does: what takes a number and what shifts does not.
fn index_of(op: u8, x: usize) -> usize
    ensures { (result ≡ index_of (long_kind op) x) × (result ≤ x) }
{
    match op {
        0x88..=0x8B | 0x92 | 0x95 => 0,
        _ => x,
    }
}

fn reached(regs: &[u32; 16], index: usize, high: usize, low: usize) -> usize
    requires { (index < 16) × (high < 256) × (low < 256) }
    ensures { result ≡ address_of regs.now index (high / 16) (high % 16 * 256 + low) }
{
    machine::address(regs, index, high / 16, high % 16 * 256 + low) as usize
}

pub fn address(regs: &[u32; 16], store: &[u8], counter: u32) -> usize
    ensures { result ≡ operand_address (cpu regs.now 0 counter) store.now }
{
    let at = counter as usize;
    let op = figures::byte(store, at);
    let fields = wide(figures::byte(store, at + 1));
    let high = wide(figures::byte(store, at + 2));
    let low = wide(figures::byte(store, at + 3));
    reached(regs, index_of(op, fields % 16), high, low)
}
