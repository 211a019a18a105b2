mod parts;
mod places;
mod read;
mod trees;
