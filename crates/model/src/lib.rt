// What every other crate means: sets, tasks, lines, couplings and joint steps, as definitions in specs/.
// Knows no bytes and no code. The laws that stand above the definitions are proved in proofs/.
#![tactic(auto)]
