#![tactic(auto)]

// What follows from the recorder's definition, whatever code keeps it: it holds theorems alone, and nothing runs.
