// The demands, as theorems about what the contracts cite: no code.
#![tactic(auto)]
