mod lists;
mod rows;
