// What every proof cites: runs of elements, stores at a place, buffers that a loop writes, signed numbers, rules of a
// table, exact quotients of floats. There is no code here: definitions stand in specs/, laws in proofs/.
#![tactic(auto)]
