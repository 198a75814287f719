#![tactic(auto)]

// Theorems about the definitions of `model` alone: no record and no code of the machine. The statements are in model's
// specs/Statements.antt and in specs/ here, the proofs in proofs/.
