// No code. The demands: what is believed of them stands in specs/, over the contracts of the operations; their theorems stand in proofs/,
// Demands first.
#![tactic(auto)]
