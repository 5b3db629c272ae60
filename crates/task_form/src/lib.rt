// The form of a task file, as definitions in specs/: the questions asked of each command, and the task that is named.
// Knows commands, offsets and sizes, and no code that reads. The laws that stand above the definitions are in proofs/.
#![tactic(auto)]
