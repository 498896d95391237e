// What the programs that compare read and write: lines of decimal numbers, a checksum, and a window on an input that is longer than the room for it.
#![tactic(auto)]

pub mod checksum;
pub mod decimal;
pub mod output;
pub mod tally;
pub mod window;
