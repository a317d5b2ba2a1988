#![tactic(auto)]
// What is shown by computation: 01's twelve judged examples (specs/Judged.antt, proofs/Twelve.antt) and a record whose text is the longest
// (proofs/Longest.antt). There is no program.
