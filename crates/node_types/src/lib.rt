#![tactic(auto)]

// Theory only: trees of node types, their letters, how a word is reduced to types, and the machine that reads them back. It knows words and when they are
// valid; no plans, no bytes and no code.
