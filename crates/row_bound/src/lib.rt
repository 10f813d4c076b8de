// A table that passes the check is not shorter than what fill reports for a list whose keys have rows of their own there: those keys that get a
// section (proofs/). No code of its own.

#![tactic(auto)]
