// Every accepted event keeps a well-formed table well formed: theorems only.
#![tactic(auto)]
