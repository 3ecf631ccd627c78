// Theorems only: the abstract system of set-constrained delivery.
#![tactic(auto)]
