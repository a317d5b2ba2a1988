#![tactic(auto)]
// General laws of tests, numbers below a bound and lists (proofs/), which know nothing of records, and two definitions that they are about
// (specs/Below.antt). There is no program.
