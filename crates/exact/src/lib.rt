// When a machine answers exactly where a relation holds: all of it definitions and laws, in specs/ and proofs/.
#![tactic(auto)]
