#![tactic(auto)]
// Theorems over the contracts.
