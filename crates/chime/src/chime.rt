// The state of a chime.
ghost use Rattle.std.specs.Prelude.{◌≡◌, ◌<◌, ◌≤◌, length};

// How many cells the memory has.
pub(crate) const CELLS: usize = 37;

// The most strokes that it can be told to make: an event may send nine frames.
pub(crate) const MOST_STROKES: u8 = 9;

// A chime at an address. It follows the address `link`, and strikes so many times when a button there changes.
#[derive(Drop)]
pub struct Chime {
    pub(crate) address: u8,
    pub(crate) tone: u8,
    pub(crate) cells: [u8; CELLS],
    pub(crate) link: u8,
    pub(crate) strokes: u8,
    ghost narrow: { address < 256 },
    ghost full: { length cells ≡ 37 },
    ghost few: { strokes ≤ 9 },
}
