// The demands are statements over the definitions below: specs/ states and proves them, and no code is here.
#![tactic(auto)]
