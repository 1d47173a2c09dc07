// listing_length.
#![tactic(auto)]
