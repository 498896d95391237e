// Kinds: what each name means, which registers are protected and written, refusals 8 to 12.
#![tactic(auto)]
