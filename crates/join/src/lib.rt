// What an accepted program can do: where control can be, what holds there, and that it stays so.
#![tactic(auto)]
