// No code: what is proved over the definitions of several crates stands here.
#![tactic(auto)]
