#![tactic(auto)]

// Theory only: the contour word of a plan as a list of letters, the labels and bits that stand in it, the edges that are open at each position, the
// standard plan that it determines, and the stack machine that reads it back. It knows no bytes and no code.
