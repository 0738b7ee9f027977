#![tactic(auto)]

// Theory only: what a walk that goes forward once may check and write as it meets each dart, and what it then knows of the plan and of its word. It
// knows tours position by position; no bytes and no code.
