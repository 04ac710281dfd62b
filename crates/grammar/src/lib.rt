// What heads and chunk size lines are, from RFC 9112 and RFC 9110: all of it definitions, in specs/.
#![tactic(auto)]
