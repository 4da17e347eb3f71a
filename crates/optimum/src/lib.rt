// The mathematics of the plan: no placement is cheaper, and one plan is named. No function stands here.
#![tactic(auto)]
