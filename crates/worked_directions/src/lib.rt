// Worked lists of calls with directions, on the reference sheet, with all their answers, and worked runs of rebates, proved on the definitions
// (proofs/Directions.antt, proofs/Rebates.antt).
#![tactic(auto)]
