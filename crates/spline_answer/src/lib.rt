// What a held spline comes to, as definitions alone.
#![tactic(auto)]
