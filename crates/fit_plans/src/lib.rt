#![tactic(auto)]

// Theory only: what is known of every plan that is fit for a kind, from its traversal to its standard numbering. It knows no records and no code.
