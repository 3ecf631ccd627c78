// Theorems only: the definitions of ask and commit, their fixed cases, and their laws.
#![tactic(auto)]
