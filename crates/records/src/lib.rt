// What a record does to the state that the code keeps: the machine of the rules over it. No code.
#![tactic(auto)]
