/// A list as the first ones of a line: the place of the line, and how many.
#[derive(Clone, Copy)]
pub struct Front {
    pub line: usize,
    pub count: usize,
}
