// What a token decides by its kind: which rule goes on with it.
ghost use Rattle.std.specs.Prelude.{◌≡◌, not, ◌&&◌, [], ◌∷◌, ◌+◌, eqb, get_or};
ghost use Rattle.base.specs.Lists.{member};
ghost use Rattle.token.specs.Kinds as K;
ghost use Rattle.grammar.specs.Grammar as G;

use crate::reader::Reader;
use token::kinds;

pub fn is_relation(k: u8) -> bool
    ensures { result ≡ member k G.relations }
{
    matches!(k, kinds::AT_MOST..=kinds::UNEQUAL | kinds::EQUAL..=kinds::MORE)
}

pub fn begins_condition(k: u8) -> bool
    ensures { result ≡ member k (K.NAME ∷ K.OVERFLOW ∷ G.relations) }
{
    matches!(k, kinds::NAME | kinds::OVERFLOW) || is_relation(k)
}

pub fn is_operator(k: u8) -> bool
    ensures { result ≡ member k G.operators }
{
    matches!(k, kinds::AND..=kinds::XOR | kinds::SHLL..=kinds::SHRA | kinds::ADD_LOGICAL..=kinds::TIMES)
}

pub fn opens(k: u8) -> bool
    ensures { result ≡ member k G.openers }
{
    matches!(
        k,
        kinds::BEGIN | kinds::IF | kinds::WHILE | kinds::CASE | kinds::FOR
    )
}

pub fn declares(k: u8) -> bool
    ensures { result ≡ member k G.declarators }
{
    matches!(
        k,
        kinds::INTEGER..=kinds::ARRAY | kinds::SEGMENT | kinds::BYTE | kinds::CHARACTER
    )
}

// Whether the next token is an ELSE that goes with a true part of the kind k.
pub fn has_else(reader: &Reader, k: u8) -> bool
    ensures { result ≡ (eqb (get_or reader.now.kinds.now reader.now.at 0) K.ELSE && not (member k (K.IF ∷ K.WHILE ∷ K.FOR ∷ []))) }
{
    reader.kind() == kinds::ELSE && !matches!(k, kinds::IF | kinds::WHILE | kinds::FOR)
}

// Whether the next token is a label, before its colon.
pub fn has_label(reader: &Reader) -> bool
    ensures { result ≡ (eqb (get_or reader.now.kinds.now reader.now.at 0) K.NAME && eqb (get_or reader.now.kinds.now (reader.now.at + 1) 0) K.COLON) }
{
    reader.kind() == kinds::NAME && reader.kind_behind() == kinds::COLON
}
