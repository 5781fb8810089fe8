// How many records of each kind a book holds.
#[derive(Clone, Copy, PartialEq, Eq, Debug)]
pub struct Counts {
    pub prices: usize,
    pub positions: usize,
    pub interconnections: usize,
    pub reserves: usize,
    pub failures: usize,
    pub fines: usize,
}
