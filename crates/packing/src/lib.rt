#![tactic(auto)]

// Theory only: numbers packed from digits and taken apart again, payloads made of tree bits and labels and taken apart, and a payload behind its head. It
// knows lists of numbers, no plans and no code.
