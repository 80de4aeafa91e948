// No code: that the elimination in memory is the definition's, turn by turn, stands in proofs/.
#![tactic(auto)]
