// Theorems only: how a call that is lent its parameters hands them to another function and stores what comes back.
#![tactic(auto)]
