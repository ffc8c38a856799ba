// The theorems of the ranked window: its engine, run from its start to its end, answers as the reference model (crate `model`) with the
// rule of a ranked window does, row by row. There is no code here: the rule, the engine's calls in a row and what its stores hold stand in
// specs/, the theorems in proofs/.
#![tactic(auto)]
