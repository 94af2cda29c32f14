// The marked cases of document 01 and a history in which the demands have something to say: definitions and what is
// computed of them, in specs/ and proofs/.
#![tactic(auto)]
