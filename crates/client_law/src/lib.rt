// The client's sum over recordings is the last sum of the table that fill, pad and extend make of the list (specs/, proofs/). No code of its own.

#![tactic(auto)]
