// Theorems only: the layout of book files, their fixed cases, and their laws.
#![tactic(auto)]
