// The product of two diagrams as a run over truth tables: the definitions are in specs/, their laws in proofs/. No code.
#![tactic(auto)]
