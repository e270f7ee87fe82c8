// Laws of the signed integers, for proofs: see specs/ and proofs/.
#![tactic(auto)]
