// Worked lists of calls by desks with regions, what such desks are told, and two books that are alike for one of them, proved on the definitions
// (proofs/Desks.antt, proofs/Apart.antt).
#![tactic(auto)]
