// The plain form of a head: what it is, and that it says the same: all of it definitions and laws, in specs/ and proofs/.
#![tactic(auto)]
