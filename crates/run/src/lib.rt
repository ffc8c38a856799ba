// The sequence theorems of the filter: its engine, run from its start to its end, answers as the reference model (crate `model`) with the pixel
// rule does, row by row. There is no code here: the engine's calls in a row and what its stores hold stand in specs/, the theorems in proofs/.
#![tactic(auto)]
