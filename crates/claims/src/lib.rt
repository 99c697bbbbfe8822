// All that is claimed, as one statement about the definitions that the contracts cite, with its proof; and the marked
// examples of the layouts' paper. There is no code here.
#![tactic(auto)]
