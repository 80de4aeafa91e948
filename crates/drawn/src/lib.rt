// No code: what the memory holds of the definition's state stands in specs/, laws of it in proofs/.
#![tactic(auto)]
