#![tactic(auto)]

// Theory only: the standard numbering of a toured plan, that the word determines the standard plan, and that the word of a fit plan is valid. It knows
// what is assumed of a tour position by position, not why a traversal is one; no bytes and no code.
