#![tactic(auto)]
// What the index of a run holds (specs/Claims.antt), and the proofs: its entries are exactly the run's distinct records, and finding a record in
// it tells whether the run has an Equal one. There is no program.
