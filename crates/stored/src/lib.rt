// What becomes of the memory and the map that are lent to a card: why a byte or an entry may change,
// that what was stored is read back, and what a locked card lets happen, in MMC mode and in SPI. There is
// no code here: the predicates are in specs/, the theorems in proofs/.
#![tactic(auto)]
