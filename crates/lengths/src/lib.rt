// Laws of the grammar, which has none in it: no line end, header block or head is empty. All of it stands in specs/.
#![tactic(auto)]
