// Kinds of modules.
ghost use Rattle.std.specs.Prelude.{◌≡◌};
ghost use Rattle.terms.specs.Sizes.{cells_of};

use std::fmt;

#[derive(Clone, Copy, PartialEq, Eq)]
pub enum ModuleType {
    Relay,
    Panel,
    Buttons,
}

impl ModuleType {
    /// How many cells its memory has; in its record, the state bytes follow them. `kinds` proves that these are the cells of
    /// the kind.
    pub fn cells(self) -> usize
        ensures { result ≡ cells_of self }
    {
        match self {
            ModuleType::Panel => 256,
            ModuleType::Relay | ModuleType::Buttons => 1024,
        }
    }
}

impl fmt::Display for ModuleType {
    fn fmt<W: fmt::Write>(&self, f: &mut fmt::Formatter<W>) -> fmt::Result {
        f.write_str(match self {
            ModuleType::Relay => "relay",
            ModuleType::Panel => "panel",
            ModuleType::Buttons => "button interface",
        })
    }
}
