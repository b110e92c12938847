// What is written is read again: no code, the theorem stands in proofs/.
#![tactic(auto)]
