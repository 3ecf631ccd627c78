// Theorems only: the dispatcher's definitions, its fixed cases, and its laws.
#![tactic(auto)]
