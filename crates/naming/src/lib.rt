#![tactic(auto)]

// Theory only: the reading machine's run does not depend on how the vertices are named, if those entered later have higher names. It knows the machine; no
// plans, no bytes and no code.
