// What happens to buttons.
ghost use Rattle.std.specs.Prelude.{◌≡◌};
ghost use Rattle.station.specs.Edges.{numbered_edge};
ghost use Rattle.terms.specs.EdgeNames.{name_of};

use station::Edge;

// The name of an edge, which is a number as tools and logs have it.
pub fn edge_name(edge: u8) -> &'static str
    ensures { result.now ≡ name_of (numbered_edge edge) }
{
    match Edge::try_from(edge) {
        Ok(Edge::Press) => "press",
        Ok(Edge::Release) => "release",
        Ok(Edge::LongPress) => "long press",
        Err(_) => "no edge",
    }
}
