// What is proved above single calls: definitions in specs/, theorems in proofs/. There is no code here.
#![tactic(auto)]
