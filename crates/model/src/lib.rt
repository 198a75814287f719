#![tactic(auto)]

// What a reader has to believe: the definitions of document 01, in specs/, in its own order. There is no code here.
