mod ground;
mod rows;
mod shown;
mod units;
mod written;
