// Document 01, "Grammar": "statement", "block", and procedures, the rules that hold statements.
#![tactic(auto)]

ghost use Rattle.std.specs.Prelude.{◌+◌, ◌<◌, length};
ghost use Rattle.grammar.specs.Grammar as G;
ghost use Rattle.tape.specs.Tape.{tape_statement, tape_body, tape_items};
ghost use Rattle.readers.specs.Reads.{SameTape, Wrote, WroteNamed};
ghost use Rattle.statements.specs.Parts.{if_part, while_part, case_part, for_part, tape_procedure, tape_block};

use phrases::declarations::declaration;
use phrases::simple::{case_head, control, head, limit, procedure_head, simple};
use readers::classes::{declares, has_else, has_label, opens};
use readers::reader::{Answer, Reader};
use readers::tokens::Why;
use token::kinds;

// A statement, with room for so many constructs one inside the other.
#[cycle(statements)]
pub fn statement(r: &mut Reader, room: usize) -> Answer
    ensures read { Wrote tape_statement (G.statement room) r.old r.new result }
    ensures same { SameTape r.old r.new }
{
    let k = r.kind();
    if opens(k) {
        if room == 0 {
            return Err(Why::TooDeep);
        }
        let word = r.take();
        if k == kinds::BEGIN {
            r.write(tape::BLOCK, word);
            return body(r, word, room - 1);
        }
        if k == kinds::IF {
            return if_then(r, word, room - 1);
        }
        if k == kinds::WHILE {
            return while_do(r, word, room - 1);
        }
        if k == kinds::CASE {
            return case_of(r, word, room - 1);
        }
        return for_do(r, word, room - 1);
    }
    simple(r)
}

// What follows the IF at the token `word`.
#[cycle(statements)]
fn if_then(r: &mut Reader, word: usize, room: usize) -> Answer
    requires { word < r.old.at }
    ensures read { WroteNamed tape_statement (if_part (G.statement room)) word r.old r.new result }
    ensures same { SameTape r.old r.new }
{
    head(r, kinds::THEN)?;
    let k = r.kind();
    statement(r, room)?;
    if has_else(r, k) {
        r.take();
        r.write(tape::ELSE, word);
        statement(r, room)?;
        r.write(tape::END_ELSE, word);
        return Ok(());
    }
    r.write(tape::END_IF, word);
    Ok(())
}

// What follows the WHILE at the token `word`.
#[cycle(statements)]
fn while_do(r: &mut Reader, word: usize, room: usize) -> Answer
    requires { (r.old.events < r.old.at) × (word < r.old.at) }
    ensures read { WroteNamed tape_statement (while_part (G.statement room)) word r.old r.new result }
    ensures same { SameTape r.old r.new }
{
    r.write(tape::WHILE, word);
    head(r, kinds::DO)?;
    statement(r, room)?;
    r.write(tape::END_WHILE, word);
    Ok(())
}

// What follows the CASE at the token `word`, "register OF BEGIN {statement ;} END": how many statements there are stands first on the tape and is known last.
#[cycle(statements)]
fn case_of(r: &mut Reader, word: usize, room: usize) -> Answer
    requires { (r.old.events < r.old.at) × (word < r.old.at) }
    ensures read { WroteNamed tape_statement (case_part (G.statement room)) word r.old r.new result }
    ensures same { SameTape r.old r.new }
{
    let place = r.skip();
    let name = r.at();
    case_head(r)?;
    let mut n: usize = 0;
    while r.kind() != kinds::END {
        statement(r, room)?;
        r.wanted(kinds::SEMICOLON)?;
        r.write(tape::END_CHOICE, name);
        n += 1;
    }
    r.take();
    r.put(place, tape::LISTED, n);
    r.write(tape::END_CASE, name);
    Ok(())
}

// What follows the FOR at the token `word`.
#[cycle(statements)]
fn for_do(r: &mut Reader, word: usize, room: usize) -> Answer
    requires { word < r.old.at }
    ensures read { WroteNamed tape_statement (for_part (G.statement room)) word r.old r.new result }
    ensures same { SameTape r.old r.new }
{
    control(r)?;
    let number = r.at();
    limit(r)?;
    statement(r, room)?;
    r.write(tape::END_FOR, number);
    Ok(())
}

// A procedure, whose word is the next token.
#[cycle(statements)]
fn procedure(r: &mut Reader, room: usize) -> Answer
    requires { r.old.at < length r.old.kinds.now }
    ensures read { Wrote tape_procedure (G.procedure_of room) r.old r.new result }
    ensures same { SameTape r.old r.new }
{
    if room == 0 {
        return Err(Why::TooDeep);
    }
    r.take();
    let name = r.at();
    procedure_head(r)?;
    statement(r, room - 1)?;
    r.write(tape::END_PROCEDURE, name);
    Ok(())
}

// What follows the BEGIN at the token `begin`.
#[cycle(statements)]
fn body(r: &mut Reader, begin: usize, room: usize) -> Answer
    requires { begin < r.old.at }
    ensures read { Wrote (tape_block tape_body begin) (G.fuelled (G.body_of (G.statement room) (G.procedure_of room))) r.old r.new result }
    ensures same { SameTape r.old r.new }
{
    loop {
        let k = r.kind();
        if declares(k) {
            declaration(r)?;
            r.wanted(kinds::SEMICOLON)?;
            continue;
        }
        if k != kinds::PROCEDURE {
            return items(r, begin, room);
        }
        procedure(r, room)?;
        r.wanted(kinds::SEMICOLON)?;
    }
}

// "{statement ; or name :} END" of the block whose BEGIN is the token `begin`.
#[cycle(statements)]
fn items(r: &mut Reader, begin: usize, room: usize) -> Answer
    requires { begin < r.old.at }
    ensures read { Wrote (tape_block tape_items begin) (G.fuelled (G.items_of (G.statement room))) r.old r.new result }
    ensures same { SameTape r.old r.new }
{
    while r.kind() != kinds::END {
        if has_label(r) {
            let label = r.take();
            r.take();
            r.write(tape::LABEL, label);
            continue;
        }
        statement(r, room)?;
        r.wanted(kinds::SEMICOLON)?;
    }
    r.take();
    r.write(tape::END_BLOCK, begin);
    Ok(())
}
