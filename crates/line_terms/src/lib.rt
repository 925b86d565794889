// Document 01's reading of the line: its terms (stands, taken, certain), a scan of the line that computes, and the laws that tie
// the two. Definitions and laws only, no code.
#![tactic(auto)]
