// The library of laws that the other crates cite: lent memory, tests, parts of lists, joins, checks in their order. Definitions and
// laws only, no code.
#![tactic(auto)]
