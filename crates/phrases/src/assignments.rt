// "designator", "operand", "condition", "assignment".
ghost use Rattle.std.specs.Prelude.{◌≡◌, [], ◌∷◌, ◌+◌, ◌≤◌, ◌<◌, length};
ghost use Rattle.token.specs.Kinds as K;
ghost use Rattle.grammar.specs.Reader.{want_one};
ghost use Rattle.grammar.specs.Grammar as G;
ghost use Rattle.tape.specs.Tape.{tape_designator, tape_operand, tape_condition, tape_term, tape_each, tape_sign, tape_assignment};
ghost use Rattle.readers.specs.Reads.{SameTape, Took, Still, Moved, Designated, Written, Wrote, WroteNamed};
ghost use Rattle.phrases.specs.Parts.{targeted};

use readers::classes::{begins_condition, is_operator, is_relation};
use readers::reader::{Answer, Reader};
use readers::tokens::Why;
use token::kinds;

fn number_or_name(r: &mut Reader) -> Answer<usize>
    ensures read { Took (want_one (K.NUMBER ∷ K.NAME ∷ [])) r.old r.new result }
    ensures still { Still r.old r.new }
{
    let k = r.kind();
    if k == kinds::NUMBER {
        return Ok(r.take());
    }
    if k == kinds::NAME {
        return Ok(r.take());
    }
    Err(Why::Unexpected)
}

// What follows the name of a designator, as its shape: 0 nothing, 1 (number), 2 (name), 3 (number)(name).
// Kept: the shape is a number, since `place` adds it to the event's number, for which an enum would be cast back at once.
fn designator(r: &mut Reader, name: usize) -> Answer<u32>
    ensures read { Designated name r.old r.new result }
    ensures still { Still r.old r.new }
{
    if r.kind() != kinds::OPEN {
        return Ok(0);
    }
    r.take();
    let k = r.kind();
    number_or_name(r)?;
    r.wanted(kinds::CLOSE)?;
    if k == kinds::NAME {
        return Ok(2);
    }
    if r.kind() != kinds::OPEN {
        return Ok(1);
    }
    r.in_parens(kinds::NAME)?;
    Ok(3)
}

// Whether the name before begins a target: a designator, and `:=` behind it.
pub fn is_target(r: &mut Reader, name: usize) -> bool
    ensures target { result ≡ targeted r.old.kinds.now (G.designator_of name r.old.kinds.now r.old.at) }
    ensures kept { Moved r.old r.old.at r.new }
{
    let behind = r.at();
    let shape = designator(r, name);
    let next = r.kind();
    r.back(behind);
    match shape {
        Ok(_) => next == kinds::BECOMES,
        Err(_) => false,
    }
}

// The designator whose name stands before, with its event.
fn place(r: &mut Reader, name: usize, op: u32) -> Answer
    requires { (r.old.events < r.old.at) × ((name < r.old.at) × (op < 60)) }
    ensures read { WroteNamed (tape_designator op) G.designator_of name r.old r.new result }
    ensures same { SameTape r.old r.new }
{
    let shape = designator(r, name)?;
    r.write(op + shape, name);
    Ok(())
}

pub fn operand(r: &mut Reader, op: u32) -> Answer
    requires { op < 60 }
    ensures read { Wrote (tape_operand op) G.operand r.old r.new result }
    ensures same { SameTape r.old r.new }
{
    let k = r.kind();
    if k == kinds::NUMBER {
        let number = r.take();
        r.write(op + tape::NUMBER, number);
        return Ok(());
    }
    if k == kinds::NAME {
        let name = r.take();
        return place(r, name, op);
    }
    Err(Why::Unexpected)
}

pub fn condition(r: &mut Reader) -> Answer
    ensures read { Wrote tape_condition G.condition r.old r.new result }
    ensures same { SameTape r.old r.new }
{
    let k = r.kind();
    if k == kinds::NAME {
        r.take();
        if is_relation(r.kind()) {
            r.take();
            return operand(r, tape::COMPARED);
        }
        return Err(Why::Unexpected);
    }
    if begins_condition(k) {
        let bare = r.take();
        r.write(tape::BARE, bare);
        return Ok(());
    }
    Err(Why::Unexpected)
}

fn terms(r: &mut Reader) -> Answer
    ensures read { Wrote (tape_each tape_term) (G.fuelled G.terms) r.old r.new result }
    ensures same { SameTape r.old r.new }
{
    while is_operator(r.kind()) {
        r.take();
        operand(r, tape::TERM)?;
    }
    Ok(())
}

// "[ABS, NEG or NEG ABS]": nothing is refused here.
fn sign(r: &mut Reader)
    ensures read { Written tape_sign r.old.kinds.now r.old.at r.old.events r.old.tape.now r.new (G.sign_of r.old.kinds.now r.old.at) }
    ensures same { SameTape r.old r.new }
{
    let k = r.kind();
    if k == kinds::ABS {
        let abs = r.take();
        r.write(tape::ABS, abs);
        return;
    }
    if k != kinds::NEG {
        return;
    }
    let neg = r.take();
    if r.kind() == kinds::ABS {
        r.take();
        r.write(tape::NEG_ABS, neg);
        return;
    }
    r.write(tape::NEG, neg);
}

// The assignment whose target's name stands before, with op for the target's event.
pub fn assignment(r: &mut Reader, name: usize, op: u32) -> Answer
    requires { (r.old.events < r.old.at) × ((name < r.old.at) × (op < 60)) }
    ensures read { WroteNamed (tape_assignment op) G.assignment_of name r.old r.new result }
    ensures same { SameTape r.old r.new }
{
    place(r, name, op)?;
    r.wanted(kinds::BECOMES)?;
    sign(r);
    operand(r, tape::FIRST)?;
    terms(r)
}
