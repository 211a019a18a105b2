/// Why a list or a text could not grow or be copied.
#[derive(Clone, Copy, Debug, PartialEq, Eq)]
pub enum ListFault {
    /// There was no memory.
    NoMemory,
}
