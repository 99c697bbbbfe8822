// First places and pairs of places: definitions that the layers above share, with their laws. No functions.
#![tactic(auto)]
