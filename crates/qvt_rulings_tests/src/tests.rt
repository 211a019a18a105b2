mod ground;
mod names;
mod shown;
mod steps;
mod types;
