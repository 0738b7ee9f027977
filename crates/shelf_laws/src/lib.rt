#![tactic(auto)]

// Theorems over the promises of shelving, fetching and walking, on histories of a shelf and on bytes laid end to end. No code stands here. Of a payload they say at most
// that a fit plan has its record.
