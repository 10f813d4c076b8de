// Document 01's printed example, worked out from the definitions: the text that they define for its input is the printed one (proofs/).

#![tactic(auto)]
