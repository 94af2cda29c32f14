// Nights: a house and what its sessions lend it. Document 02, #102. Definitions and theorems only: specs/Night.antt has
// the calls of a night, a feed and the end of feeding among them.
#![tactic(auto)]
