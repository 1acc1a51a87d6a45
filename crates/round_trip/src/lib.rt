// What is written comes back, and what damage can do: theorems of the frame reader's and the frame writer's definitions. No code.
#![tactic(auto)]
