// Phrases: the parts of a program that hold no statement. Document 01, "Grammar", a function for each rule, over the kinds of the tokens. What is read is
// written out as events on a tape (crate `tape`); what is none is refused, 4, at a token.
#![tactic(auto)]

pub mod assignments;
pub mod declarations;
pub mod simple;
