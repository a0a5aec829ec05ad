// Swaps of neighbours, what they keep and what they reach, over any records and any machine: definitions in specs/, theorems in proofs/; there is no code here.
#![tactic(auto)]
