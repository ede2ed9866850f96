// demands
#![tactic(auto)]
