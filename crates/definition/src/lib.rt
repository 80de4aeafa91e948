// No code: the definition of the ordering stands in specs/, theorems by computation in proofs/.
#![tactic(auto)]
