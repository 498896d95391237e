// A text's cells by their names, and the operand of an instruction by its address: what who runs a source asks for by name and is told of in its own words.
#![tactic(auto)]

ghost use Rattle.std.specs.Prelude.{◌≡◌, ℕ, ◌+◌, ◌*◌, ◌≤◌, ◌<◌, length};
ghost use Rattle.token.specs.Text.{tokens_of, TEXT-LIMIT};
ghost use Rattle.grammar.specs.Grammar.{nesting};
ghost use Rattle.scopes.specs.Search.{first_token};
ghost use Rattle.tape.specs.Events.{TOKEN-LIMIT};
ghost use Rattle.ledger.specs.Book.{wide_of, thin_of};
ghost use Rattle.ledger.specs.Bounds.{Narrow, Nested};
ghost use Rattle.settled.specs.Texts.{all_tokens, Lent, Rooms};
ghost use Rattle.emit.specs.Books.{wide_in, thin_in};
ghost use Rattle.listing.specs.Sound.{sound_of};
ghost use Rattle.listing.specs.Cells.{site_named};
ghost use Rattle.listing.specs.Operands.{span_of, stores as stores_of, target_after, operand_by, span_after, span_along, reach as reach_of};
ghost use Rattle.listing.specs.Seeing.{sited_in, sites_in, operand_of, Shows, LooksOn, LooksAt, Sees};

use emit::{Book, Use, Writing, size, table_size};
use ledger::{mean, offset, under, value};
use settled::{FIRST_TOKEN, MORE_ROWS, TEXT_LIMIT, place_of};
use tables::{element_size, is_array, is_cell, number};

// ── cells ──

// The first cell of a name, and whether there are more; its segment, its offset there, the size and the number of its elements, whether it is an array.
#[derive(Clone, Copy)]
pub struct Site {
    pub more: bool,
    pub segment: u32,
    pub offset: u64,
    pub size: u32,
    pub elements: u32,
    pub array: bool,
}

// What is declared at token t, before those behind it.
fn sited(wide: &[u64], key: u64, t: usize, later: Option<Site>) -> Option<Site>
    ensures { result ≡ sited_in (wide_of wide.now) key t later }
{
    let m = mean(wide, t);
    if is_cell(m) & (value(wide, t) == key) {
        return Some(Site {
            more: later.is_some(),
            segment: (under(wide, t) % 4294967296) as u32,
            offset: offset(wide, t),
            size: element_size(m) as u32,
            elements: number(m) as u32,
            array: is_array(m),
        });
    }
    later
}

fn sites(wide: &[u64], key: u64) -> Option<Site>
    ensures { result ≡ sites_in (wide_of wide.now) key }
{
    let mut site = None;
    for t in (0..wide.len() / 4).rev() {
        site = sited(wide, key, t, site);
    }
    site
}

// ── operands ──

// An operand as it is written: its first and its last token.
#[derive(Clone, Copy)]
pub struct Span {
    pub token: usize,
    pub last: usize,
}

// From the first token of an operand to its last.
fn reach(shape: u32) -> usize
    ensures { (result ≡ reach_of shape) × (result ≤ 6) }
{
    match shape {
        tape::SUBSCRIPTED | tape::INDEXED => 3,
        tape::SUBSCRIPTED_INDEXED => 6,
        _ => 0,
    }
}

fn span_at(token: usize, shape: u32) -> Span
    requires { token < TOKEN-LIMIT }
    ensures { result ≡ span_of token shape }
{
    let last = token + reach(shape);
    Span { token, last }
}

fn stores(aim: Use) -> bool
    ensures { result ≡ stores_of aim }
{
    matches!(aim, Use::Stored(..))
}

// What is written: an assignment's target, or the last argument of a use.
fn target_after(family: u32, own: Span, target: Option<Span>) -> Option<Span>
    ensures { result ≡ target_after family own target }
{
    if (family == tape::TARGET) | ((family == tape::CONTROL) | (family == tape::ARGUED)) {
        return Some(own);
    }
    target
}

// A store's operand is the target, and that of a use its last argument.
fn operand_by(family: u32, aim: Use, own: Span, target: Option<Span>) -> Option<Span>
    ensures { result ≡ operand_by family aim own target }
{
    if ((family == tape::FIRST) & stores(aim)) | (family == tape::COUNTED) {
        return target;
    }
    Some(own)
}

fn span_after(
    address: usize,
    p: usize,
    q: usize,
    operand: Option<Span>,
    span: Option<Span>,
) -> Option<Span>
    ensures { result ≡ span_after address p q operand span }
{
    if (p == address) & (p < q) {
        return operand;
    }
    span
}

// The operand of the event whose first instruction is at the address.
fn span_along(tape: &[u32], book: Book, address: usize) -> Option<Span>
    requires { length tape.now ≤ 2 * TOKEN-LIMIT }
    ensures { result ≡ span_along address book.entry.kinds.now (wide_in book.entry) (thin_in book.entry) tape.now }
{
    let mut p: usize = 0;
    let mut w = Writing {
        aim: Use::Absent,
        sign: None,
        arguments: 0,
    };
    let mut target = None;
    let mut span = None;
    for e in tape {
        let op = tape::op(*e);
        let t = tape::token(*e);
        let made = emit::event(book, op, t, w);
        let codes = made.codes;
        let q = p + (size(codes) + table_size(op, w));
        let aim = w.aim;
        let family = tape::family(op);
        let own = span_at(t, tape::form(op));
        span = span_after(address, p, q, operand_by(family, aim, own, target), span);
        target = target_after(family, own, target);
        let next = made.writing;
        w = next;
        p = q;
    }
    span
}

// ── both, of a text ──

// An operand by the places of its first and its last token.
#[derive(Clone, Copy)]
pub struct Operand {
    pub from: usize,
    pub to: usize,
}

// The cell of a name, and the operand at an address of the program.
#[derive(Clone, Copy)]
pub struct Seen {
    pub site: Option<Site>,
    pub operand: Option<Operand>,
}

fn nothing() -> Seen
    ensures { (key address : ℕ) → Sees None key address result }
{
    Seen {
        site: None,
        operand: None,
    }
}

// The names in front of the text have no place.
fn placed(src: &[u8], span: Option<Span>) -> Option<Operand>
    requires { (tokens_of src.now).number ≡ 0 }
    ensures { result ≡ operand_of (all_tokens src.now) span }
{
    let span = span?;
    let from = place_of(src, span.token);
    if from == 0 {
        return None;
    }
    let to = place_of(src, span.last);
    Some(Operand { from, to })
}

// By the ledger of a text that breaks no rule.
fn look_settled(src: &[u8], tape: &[u32], book: Book, key: u64, address: usize) -> Seen
    requires { ((tokens_of src.now).number ≡ 0) × (length tape.now ≤ TOKEN-LIMIT) }
    ensures { Shows (all_tokens src.now) book.entry.kinds.now (wide_in book.entry) (thin_in book.entry) tape.now key address result }
{
    let site = sites(book.wide, key);
    let span = span_along(tape, book, address);
    let operand = placed(src, span);
    Seen { site, operand }
}

// A program that is on the tape: 6 to 13.
fn look_tape(
    src: &[u8],
    tape: &[u32],
    kinds: &[u8],
    wide: &mut [u64],
    thin: &mut [u16],
    key: u64,
    address: usize,
) -> Seen
    requires { ((tokens_of src.now).number ≡ 0) × (first_token + length tape.now ≤ length kinds.now) × Narrow tape.now × Nested nesting 0 0 tape.now
        × Lent (length kinds.now) wide.old thin.old }
    ensures { LooksOn src.now kinds.now tape.now (wide_of wide.old) (thin_of thin.old) key address result }
{
    let others = settled::bind(tape, wide, thin);
    let s = settled::settle(tape, kinds, wide, thin, others);
    match s.broken {
        Some(_) => nothing(),
        None => look_settled(src, tape, Book { kinds, wide, thin }, key, address),
    }
}

// The tokens: 4 and 5, then the rest.
fn look_tokens(
    src: &[u8],
    kinds: &[u8],
    tape: &mut [u32],
    wide: &mut [u64],
    thin: &mut [u16],
    key: u64,
    address: usize,
) -> Seen
    requires { ((tokens_of src.now).number ≡ 0) × (first_token ≤ length kinds.now) × (length tape.old ≡ length kinds.now) × Lent (length kinds.now) wide.old thin.old }
    ensures { LooksAt src.now kinds.now (wide_of wide.old) (thin_of thin.old) key address result }
{
    match parse::program(kinds, FIRST_TOKEN, tape) {
        Ok(p) => look_tape(src, &tape[..p.value], kinds, wide, thin, key, address),
        Err(_) => nothing(),
    }
}

// The text: 1 to 3, then the rest, in lists with room for any text of its length, cut to its tokens.
fn look_in(
    src: &[u8],
    kinds: &mut [u8],
    tape: &mut [u32],
    wide: &mut [u64],
    thin: &mut [u16],
    key: u64,
    address: usize,
) -> Seen
    requires { Rooms (length src.now) kinds.old tape.old wide.old thin.old }
    ensures { Sees (sound_of src.now) key address result }
{
    let tokens = settled::read(src, kinds, wide);
    match tokens {
        Ok(n) => {
            let m = FIRST_TOKEN + n;
            let rows = 4 * m;
            look_tokens(
                src,
                &kinds[..m],
                &mut tape[..m],
                &mut wide[..rows],
                &mut thin[..rows],
                key,
                address,
            )
        }
        Err(_) => nothing(),
    }
}

fn look_in_lists(src: &[u8], key: u64, address: usize) -> Seen
    requires { length src.now ≤ TEXT-LIMIT }
    ensures { Sees (sound_of src.now) key address result }
{
    let mut kinds = [0u8; TEXT_LIMIT + MORE_ROWS];
    let mut tape = [0u32; TEXT_LIMIT + MORE_ROWS];
    let mut wide = [0u64; 4 * (TEXT_LIMIT + MORE_ROWS)];
    let mut thin = [0u16; 4 * (TEXT_LIMIT + MORE_ROWS)];
    look_in(
        src, &mut kinds, &mut tape, &mut wide, &mut thin, key, address,
    )
}

// A function that calls itself takes none with large arrays into its own frame, and is taken into none: so the lists are on the stack while a text is looked at, and
// no longer.
fn look_apart(src: &[u8], key: u64, address: usize) -> Seen
    requires { length src.now ≤ TEXT-LIMIT }
    ensures { Sees (sound_of src.now) key address result }
{
    if src.len() <= TEXT_LIMIT {
        return look_in_lists(src, key, address);
    }
    look_apart(&src[..TEXT_LIMIT], key, address)
}

pub fn look(src: &[u8], key: u64, address: usize) -> Seen
    ensures { Sees (sound_of src.now) key address result }
{
    if src.len() <= TEXT_LIMIT {
        return look_apart(src, key, address);
    }
    nothing()
}

// The first cell of a name, by its key.
pub fn cell(src: &[u8], key: u64) -> Option<Site>
    ensures { result ≡ site_named src.now key }
{
    let seen = look(src, key, 0);
    seen.site
}
