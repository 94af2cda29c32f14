// Any slot number, floor and length on a line of the desk: what is shown of them, in specs/ and proofs/.
#![tactic(auto)]
