#![tactic(auto)]

// Theory only: where the parts come together. A fit plan's payload and standard plan are those of its word, which makes each kind a coder; so bytes are a
// record of a fit plan exactly when they decode, and demand 3 holds. It knows no code.
