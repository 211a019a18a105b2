mod deep;
mod printed;
mod shapes;
mod trees;
