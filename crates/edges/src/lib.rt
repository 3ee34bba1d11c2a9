// The edges of the scope paper, as a table of the definitions of all crates; the statements are in specs/ and proofs/.

#![tactic(auto)]
