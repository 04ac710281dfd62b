// What the rules beyond the RFCs' grammar add and take away: all of it theorems, in specs/ and proofs/.
#![tactic(auto)]
