#![tactic(auto)]
// 02, K5: which directory names there are, and the record that each stands for (specs/), and that the text of that record is the name
// again (proofs/). There is no program.
