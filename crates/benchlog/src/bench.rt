// A bench.
ghost use Rattle.std.specs.Prelude.{◌≡◌, length};

use bus::Frame;
use house::House;
use station::Station;

// A house, and a buffer for the frames that one call of it sends. It has nine places for each of three seats; over a
// station with more seats, calls are refused for a buffer that is too short, as by any house.
#[derive(Drop)]
pub struct Bench<S: Station> {
    pub(crate) house: House<S>,
    pub(crate) frames: [Frame; 27],
    ghost places: { length frames ≡ 27 },
}
