//! A table's text and its file: a table that is shown reads back as the same table, and one that is made loads. There is no code here: the
//! theorems stand in proofs/.
#![tactic(auto)]
