/// What a search for an order still has to do: to enter a class, or to leave it.
#[derive(Clone, Copy)]
pub enum Visit {
    Enter(u32),
    Leave(u32),
}
