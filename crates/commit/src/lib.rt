// Two runs of the check around a commit whose writer may be cut off: definitions and a theorem about them, and no code.
#![tactic(auto)]
