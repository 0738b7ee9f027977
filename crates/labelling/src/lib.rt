#![tactic(auto)]

// Theory only: document 01's labelled tree gives the labels and tree bits that are read off the contour word. It knows plans, words and what
// a traversal meets at each position; it does not know why a traversal is so, nor bytes.
