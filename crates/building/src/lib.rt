#![tactic(auto)]

// Theory only: a valid word is the word of a fit plan in standard numbers, the one that is built from it. It knows words and plans, no records and no code.
