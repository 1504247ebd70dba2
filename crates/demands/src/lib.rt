#![tactic(auto)]

// The three demands, proved of the target's calls over whatever happens since reset: it holds theorems alone, and nothing runs.
