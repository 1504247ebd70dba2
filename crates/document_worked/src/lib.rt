#![tactic(auto)]

// The worked cases of document 01 and the rows over a whole memory, apart from the definitions that they are proved of, since they are slow to
// compute: theorems alone, and nothing runs.
