// Data items of DL/T 645-2007, shared by the meter and the reader: document 01, "What the meter holds". The table of
// identifiers, and the content of a written value.
#![tactic(auto)]

pub mod content;
pub mod table;
