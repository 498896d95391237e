// The grammar: the tree of a program, its readers, refusals 4 and 5.
#![tactic(auto)]
