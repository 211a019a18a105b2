//! How a run ends and what is written of it: definitions alone.
#![tactic(auto)]
