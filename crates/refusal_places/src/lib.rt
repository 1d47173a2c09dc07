// refusal_places.
#![tactic(auto)]
