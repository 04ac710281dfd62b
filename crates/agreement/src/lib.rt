// The readers of whole heads against the definition: all of it definitions and laws, in specs/ and proofs/.
#![tactic(auto)]
