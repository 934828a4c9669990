// The whole case of docs/ROWTEXT.md, computed by the definition. Statements, and no code.
#![tactic(auto)]
