#![tactic(auto)]
// Laws of places in rising order (proofs/), over any order of places: what an index holds, and how one place more is taken in. The definitions
// that they are about are in specs/. There is no program.
