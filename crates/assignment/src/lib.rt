// What a least pairing is, and the prices that show it, for definitions and proofs: see specs/ and proofs/.
#![tactic(auto)]
