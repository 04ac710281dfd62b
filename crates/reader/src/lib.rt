// Machines that read a message one byte at a time, and the laws of their runs: all of it definitions and laws, in specs/ and proofs/.
#![tactic(auto)]
