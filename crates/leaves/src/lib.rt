// Each part of a head answers exactly where its relation holds: all of it definitions and laws, in specs/.
#![tactic(auto)]
