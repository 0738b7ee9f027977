#![tactic(auto)]

// Theory only: triangle meshes, by one walk of the dual and its stack of open edges. It knows plans, walks and letters; no bytes and no code.
