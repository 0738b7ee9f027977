#![tactic(auto)]

// Theory only: what follows from the laws of a coder alone, namely which bytes are records of fit plans, and demand 3 of document 01, one claim about two
// whole lists of writing calls. It knows what a call did and what a coder promises, not how either is done.
