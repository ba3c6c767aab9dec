// A second sheet, on which no two regions, arrangements, methods or indices are alike, and what it comes to; no code.
#![tactic(auto)]
