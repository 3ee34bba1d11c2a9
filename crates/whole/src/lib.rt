// The whole loop, from the scanner's model to the listing: the statements are in specs/ and proofs/.

#![tactic(auto)]
