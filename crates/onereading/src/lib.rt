// One reading only: answers that never change, one derivation, heads in a row, and the way to the plain form and back: theorems, in specs/ and proofs/.
#![tactic(auto)]
