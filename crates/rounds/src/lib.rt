// The search by rounds over any transition system and any estimate: definitions and theorems only.
#![tactic(auto)]
