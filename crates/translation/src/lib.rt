// The translator: instructions, layout, images, refusals 14 to 16, the whole translation.
#![tactic(auto)]
