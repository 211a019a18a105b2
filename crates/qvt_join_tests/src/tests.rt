mod notes;
mod told;
mod trees;
