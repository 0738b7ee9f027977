#![tactic(auto)]

// Theory only: the tree bits and labels of a valid word and the machine that reads them back are inverse. It knows lists of letters and numbers, no plans,
// no bytes and no code.
