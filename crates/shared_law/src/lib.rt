// Two recorders on one list of keys do not notice each other (specs/, proofs/). No code of its own.

#![tactic(auto)]
