#![tactic(auto)]

// Demands 2 and 3 over the very jobs that calls leave one after the other, from acceptance on, whoever holds them: theorems about the
// promises of acceptance, of the calls and of a log's run, and no code. The statements are in specs/Chain.antt, the proofs in
// proofs/.
