// No code: the shapes that definitions of several crates share stand here, with their laws.
#![tactic(auto)]
