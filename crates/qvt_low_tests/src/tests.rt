mod lists;
mod names;
mod outside;
mod tokens;
mod values;
