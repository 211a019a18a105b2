//! Models of texts that are read, checked, loaded and written again, for who tests or times them: what the calls below ask of a store
//! and of a model is asked at run time.
#![tactic(auto)]

pub mod loading;
