// No code: the words for plain lists stand in specs/, their laws in proofs/.
#![tactic(auto)]
