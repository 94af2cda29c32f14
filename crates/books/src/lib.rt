// The book of a slot: what calls and their answers tell of it, and that they tell every answer. Definitions in specs/,
// and what is shown of them in proofs/.
#![tactic(auto)]
