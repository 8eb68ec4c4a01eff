// A running time.
ghost use Rattle.std.specs.Prelude.{◌≤◌};

// From 1 to 0xFFFFFE seconds. It has no model: a type that contains one in an enum, as `Channel`, cannot yet be handed to
// a generic function in the crates above.
#[derive(Clone, Copy)]
pub struct Seconds {
    pub(crate) value: u32,
    ghost low: { 1 ≤ value },
    ghost high: { value ≤ 0xFFFFFE },
}
