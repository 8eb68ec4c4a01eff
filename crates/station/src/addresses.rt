// The addresses of a station, gathered seat by seat.

// At which addresses a seat stands; how many seats there are, where 17 stands for more; whether one stands at 0 or 255;
// and whether two stand at one address. Both are noted, since a house says which of these faults is told.
#[derive(Drop)]
pub struct Addresses {
    pub(crate) seated: [bool; 256],
    pub count: usize,
    pub outside: bool,
    pub twice: bool,
}
