// Boolean functions as truth tables: the definitions are in specs/, their laws in proofs/. No code.
#![tactic(auto)]
