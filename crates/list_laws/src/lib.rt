// After any calls from a fresh list, a key's multiplicity is the number of its accepted confirms and recordings (specs/, proofs/). No code of its own.

#![tactic(auto)]
