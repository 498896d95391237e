// "declaration", but for procedures, which hold a statement.
ghost use Rattle.grammar.specs.Grammar as G;
ghost use Rattle.tape.specs.Tape.{tape_each, tape_value, tape_item, tape_register, tape_declaration};
ghost use Rattle.readers.specs.Reads.{SameTape, Typed, Still, Wrote};
ghost use Rattle.phrases.specs.Parts.{base_of, array_of, typed_of};

use readers::reader::{Answer, Reader};
use readers::tokens::Why;
use token::kinds;

// The initial values of a cell.
fn numbers(r: &mut Reader) -> Answer
    ensures read { Wrote (tape_each tape_value) (G.fuelled G.numbers) r.old r.new result }
    ensures same { SameTape r.old r.new }
{
    while r.kind() == kinds::OPEN {
        let number = r.in_parens(kinds::NUMBER)?;
        r.write(tape::VALUE, number);
    }
    Ok(())
}

fn cell_item(r: &mut Reader) -> Answer
    ensures read { Wrote tape_item G.cell_item r.old r.new result }
    ensures same { SameTape r.old r.new }
{
    let name = r.wanted(kinds::NAME)?;
    r.write(tape::ITEM, name);
    numbers(r)
}

fn cells(r: &mut Reader) -> Answer
    ensures read { Wrote (tape_each tape_item) (G.fuelled (G.list_of G.cell_item)) r.old r.new result }
    ensures same { SameTape r.old r.new }
{
    loop {
        cell_item(r)?;
        if r.kind() != kinds::COMMA {
            return Ok(());
        }
        r.take();
    }
}

fn register_item(r: &mut Reader) -> Answer
    ensures read { Wrote tape_register G.register_item r.old r.new result }
    ensures same { SameTape r.old r.new }
{
    let name = r.wanted(kinds::NAME)?;
    r.in_parens(kinds::NUMBER)?;
    r.write(tape::REGISTER, name);
    Ok(())
}

// Kept: beside `cells`, since a trait for the two readers of an item would name what each reads, its definition and its tape, three ghost members for two lists.
fn registers(r: &mut Reader) -> Answer
    ensures read { Wrote (tape_each tape_register) (G.fuelled (G.list_of G.register_item)) r.old r.new result }
    ensures same { SameTape r.old r.new }
{
    loop {
        register_item(r)?;
        if r.kind() != kinds::COMMA {
            return Ok(());
        }
        r.take();
    }
}

// "type = INTEGER, LOGICAL or SHORT INTEGER", BYTE or CHARACTER, as its width on the tape.
// Kept: the width is a number, since `array` and `typed` add it to the event's number, for which an enum would be cast back at once.
fn width(r: &mut Reader) -> Answer<u32>
    ensures read { Typed r.old r.new result }
    ensures still { Still r.old r.new }
{
    let k = r.kind();
    if k == kinds::INTEGER {
        r.take();
        return Ok(0);
    }
    if k == kinds::LOGICAL {
        r.take();
        return Ok(0);
    }
    if k == kinds::BYTE {
        r.take();
        return Ok(2);
    }
    if k == kinds::CHARACTER {
        r.take();
        return Ok(3);
    }
    if k != kinds::SHORT {
        return Err(Why::Unexpected);
    }
    r.take();
    r.wanted(kinds::INTEGER)?;
    Ok(1)
}

fn base(r: &mut Reader) -> Answer
    ensures read { Wrote tape_declaration base_of r.old r.new result }
    ensures same { SameTape r.old r.new }
{
    r.wanted(kinds::BASE)?;
    let name = r.wanted(kinds::NAME)?;
    r.write(tape::BASE, name);
    Ok(())
}

fn array(r: &mut Reader) -> Answer
    ensures read { Wrote tape_declaration array_of r.old r.new result }
    ensures same { SameTape r.old r.new }
{
    let count = r.in_parens(kinds::NUMBER)?;
    let width = width(r)?;
    r.write(tape::ARRAY_FULL + width, count);
    cells(r)
}

// What begins with a type: registers or cells.
fn typed(r: &mut Reader) -> Answer
    ensures read { Wrote tape_declaration typed_of r.old r.new result }
    ensures same { SameTape r.old r.new }
{
    let width = width(r)?;
    if (width == 0) & (r.kind() == kinds::REGISTER) {
        r.take();
        return registers(r);
    }
    r.write(tape::SINGLE_FULL + width, 0);
    cells(r)
}

pub fn declaration(r: &mut Reader) -> Answer
    ensures read { Wrote tape_declaration G.declaration r.old r.new result }
    ensures same { SameTape r.old r.new }
{
    let k = r.kind();
    if k == kinds::SEGMENT {
        r.take();
        return base(r);
    }
    if k == kinds::ARRAY {
        r.take();
        return array(r);
    }
    typed(r)
}
