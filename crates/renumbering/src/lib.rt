#![tactic(auto)]

// Theory only: renumberings of the darts of a map, and what they carry: vertices, the traversal, its word, fitness. It knows no records and no code.
