// What happens to a button.
ghost use Rattle.std.specs.Prelude.{◌≡◌, if◌then◌else◌, Some, None, nat_lt};
ghost use Rattle.bus.specs.Refusals.{refusal_number};
ghost use Rattle.station.specs.Edges.{numbered_edge};

use bus::Refusal;

#[derive(Clone, Copy)]
pub enum Edge {
    Press = 0,
    Release = 1,
    LongPress = 2,
}

// A cast gives the number of an edge, as tools and logs have it.
const _: () = prove!(
    Edge::Press as u8 == 0 && Edge::Release as u8 == 1 && Edge::LongPress as u8 == 2
);

// The edge of a number.
impl TryFrom<u8> for Edge {
    type Error = Refusal;

    ghost try_from_gives = { λ number r. r ≡ numbered_edge number };

    fn try_from(number: u8) -> Result<Self, Refusal>
        ensures edge { result ≡ numbered_edge number }
        ensures number { refusal_number result ≡ (if nat_lt number 3 then None else Some 7) }
    {
        match number {
            0 => Ok(Edge::Press),
            1 => Ok(Edge::Release),
            2 => Ok(Edge::LongPress),
            _ => Err(Refusal::NoSuchButton),
        }
    }
}
