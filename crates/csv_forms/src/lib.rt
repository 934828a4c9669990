// The row text as a whole: what the reader accepts, and that what is written is read again. Statements over the
// definitions below, and no code.
#![tactic(auto)]
