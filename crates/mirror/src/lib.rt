// The two mirrors of a loop (02, request 3): definitions in specs/, theorems in proofs/. There is no code.
#![tactic(auto)]
