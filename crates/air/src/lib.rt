// The AIR of the U32 table: definitions and theory alone.

#![tactic(auto)]
