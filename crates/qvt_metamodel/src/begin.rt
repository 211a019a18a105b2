/// Where the numbers of a metamodel that is added begin.
#[derive(Clone, Copy)]
pub struct Begin {
    pub metamodel: u32,
    pub class: u32,
    pub feature: u32,
}
