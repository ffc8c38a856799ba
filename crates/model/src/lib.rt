// The reference model of a scan, for any filter: a machine that keeps only the rows taken, whether it is closed and the steps done, and
// answers by a pixel rule that it is given; and theorems on it. There is no code here: the definitions stand in specs/, the theorems in proofs/.
#![tactic(auto)]
