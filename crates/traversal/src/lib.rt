#![tactic(auto)]

// Theory only: which darts the contour walk of a plan meets, in what order and with which letters; and what it is for a plan to be connected. It knows no
// records and no code.
