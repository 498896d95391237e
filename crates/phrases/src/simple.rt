// "simple", and what stands in a statement or a procedure before the statement inside it.
ghost use Rattle.std.specs.Prelude.{◌≡◌, ◌+◌, ◌<◌, length, get_or};
ghost use Rattle.token.specs.Kinds as K;
ghost use Rattle.grammar.specs.Reader.{refuse};
ghost use Rattle.grammar.specs.Grammar as G;
ghost use Rattle.tape.specs.Events as E;
ghost use Rattle.tape.specs.Tape.{tape_operand, tape_condition, tape_each, tape_argument, tape_assignment, tape_statement};
ghost use Rattle.readers.specs.Reads.{SameTape, Wrote, WroteNamed, WroteFewer};
ghost use Rattle.phrases.specs.Parts.{used_of, head_of, case_head, control_of, limit_of, procedure_head, tape_chosen, tape_opening};

use crate::assignments::{assignment, condition, is_target, operand};
use readers::reader::{Answer, Reader};
use readers::tokens::Why;
use token::kinds;

// The arguments of a use, "each in its own parentheses"; one stands here.
fn arguments(r: &mut Reader) -> Answer
    requires { get_or r.old.kinds.now r.old.at 0 ≡ K.OPEN }
    ensures read { WroteFewer (tape_each tape_argument) (G.fuelled G.arguments) r.old r.new result }
    ensures same { SameTape r.old r.new }
{
    while r.kind() == kinds::OPEN {
        r.take();
        operand(r, tape::ARGUED)?;
        r.wanted(kinds::CLOSE)?;
    }
    Ok(())
}

// A call or a use whose name stands before.
fn used(r: &mut Reader, name: usize) -> Answer
    requires { (r.old.events < r.old.at) × (name < r.old.at) }
    ensures read { WroteNamed tape_statement used_of name r.old r.new result }
    ensures same { SameTape r.old r.new }
{
    if r.kind() != kinds::OPEN {
        r.write(tape::CALL, name);
        return Ok(());
    }
    r.write(tape::APPLIED, name);
    arguments(r)?;
    r.write(tape::COUNTED, name);
    Ok(())
}

// An assignment, a call or a use whose name stands before.
pub fn after_name(r: &mut Reader, name: usize) -> Answer
    requires { (r.old.events < r.old.at) × ((r.old.at ≡ name + 1) × (get_or r.old.kinds.now name 0 ≡ K.NAME)) }
    ensures read { WroteNamed tape_statement G.after_name name r.old r.new result }
    ensures same { SameTape r.old r.new }
{
    if is_target(r, name) {
        return assignment(r, name, tape::TARGET);
    }
    used(r, name)
}

// A statement that is not BEGIN, IF, WHILE, CASE or FOR.
pub fn simple(r: &mut Reader) -> Answer
    ensures read { Wrote tape_statement (G.statement_of (refuse 4)) r.old r.new result }
    ensures same { SameTape r.old r.new }
{
    let k = r.kind();
    if k == kinds::NAME {
        let name = r.take();
        return after_name(r, name);
    }
    if k == kinds::NULL {
        r.take();
        return Ok(());
    }
    if k != kinds::GOTO {
        return Err(Why::Unexpected);
    }
    r.take();
    let label = r.wanted(kinds::NAME)?;
    r.write(tape::GOTO, label);
    Ok(())
}

// A condition and the word after it, THEN or DO.
pub fn head(r: &mut Reader, word: u8) -> Answer
    requires { 0 < word }
    ensures read { WroteFewer tape_condition (head_of word) r.old r.new result }
    ensures same { SameTape r.old r.new }
{
    condition(r)?;
    r.wanted(word)?;
    Ok(())
}

// "name OF BEGIN"
pub fn case_head(r: &mut Reader) -> Answer
    ensures read { Wrote tape_chosen case_head r.old r.new result }
    ensures same { SameTape r.old r.new }
{
    let name = r.wanted(kinds::NAME)?;
    r.wanted(kinds::OF)?;
    r.wanted(kinds::BEGIN)?;
    r.write(tape::CHOSEN, name);
    Ok(())
}

// "assignment STEP"
pub fn control(r: &mut Reader) -> Answer
    ensures read { WroteFewer (tape_assignment E.CONTROL) control_of r.old r.new result }
    ensures same { SameTape r.old r.new }
{
    let name = r.wanted(kinds::NAME)?;
    assignment(r, name, tape::CONTROL)?;
    r.wanted(kinds::STEP)?;
    Ok(())
}

// "number UNTIL operand DO"
pub fn limit(r: &mut Reader) -> Answer
    ensures read { WroteFewer (tape_operand E.LIMIT) limit_of r.old r.new result }
    ensures same { SameTape r.old r.new }
{
    r.wanted(kinds::NUMBER)?;
    r.wanted(kinds::UNTIL)?;
    operand(r, tape::LIMIT)?;
    r.wanted(kinds::DO)?;
    Ok(())
}

// "name(name) ;"
pub fn procedure_head(r: &mut Reader) -> Answer
    ensures read { WroteFewer (tape_opening r.old.at) procedure_head r.old r.new result }
    ensures same { SameTape r.old r.new }
{
    let name = r.wanted(kinds::NAME)?;
    r.in_parens(kinds::NAME)?;
    r.wanted(kinds::SEMICOLON)?;
    r.write(tape::PROCEDURE, name);
    Ok(())
}
