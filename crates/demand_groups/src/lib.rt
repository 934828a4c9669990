// The rows of a block's group, and what was written as groups: statements over rows, and no code.
#![tactic(auto)]
