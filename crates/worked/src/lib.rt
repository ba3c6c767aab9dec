// Worked lists of calls on the reference sheet, with all their answers, proved on the definitions (proofs/Lists.antt).
#![tactic(auto)]
