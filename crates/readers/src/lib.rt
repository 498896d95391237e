// A reader of tokens that writes events on a tape, and what a token decides by its kind: document 01, "Grammar", below its rules.
#![tactic(auto)]

pub mod classes;
pub mod events;
pub mod reader;
pub mod tokens;
