// A station that was looked at once.
ghost use Rattle.std.specs.Prelude.{length};
ghost use Rattle.std.proofs.Props.{props};
ghost use Rattle.house.specs.Faults.{fault_of, OkUnless};

mod seats;

use bus::Refusal;
use station::Station;

// A station, and how many seats it has or what its builder got wrong; no event changes either.
#[derive(Drop)]
pub(crate) struct Built<S: Station> {
    pub(crate) station: S,
    pub(crate) seats: Result<usize, Refusal>,
    ghost known: { OkUnless seats (fault_of (S.seats station)) (length (S.seats station)) } by { Prim.hlevel props },
}
