#![tactic(auto)]

// Theory only: a plan whose traversal is known position by position is planar exactly when the traversal's edges nest. It knows no bytes and no code.
