#![tactic(auto)]

// Theory: the walk of a mesh's dual, face by face.
