// The tally of part results by head, site and bin: definitions and what is proved of them, in specs/ and proofs/.
#![tactic(auto)]
