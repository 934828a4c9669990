// Numbers and source lines as text: which texts are read, and that what was read is written and read again as itself.
// Statements over the definitions below, and no code.
#![tactic(auto)]
