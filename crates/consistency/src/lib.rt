// Demand 3: its statement in specs/, its theorem in proofs/. No code.
#![tactic(auto)]
