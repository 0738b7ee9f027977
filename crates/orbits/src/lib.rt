#![tactic(auto)]

// Theory only: permutations, their cycles, and chord diagrams on a circle of positions. It knows numbers and functions on them, no plans and no code.
