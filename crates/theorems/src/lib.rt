// What holds of the solver, the checker and the slips together, for an auditor: see proofs/.
#![tactic(auto)]
