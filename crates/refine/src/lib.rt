// The tick over the words gives what the rules give: theorems in specs/.
#![tactic(auto)]
