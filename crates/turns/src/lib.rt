// What holds over many sector calls, each lent the table and the sector as the one before left them, as theorems. There is no code to run here.
#![tactic(auto)]
