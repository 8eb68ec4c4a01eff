// The kinds of log items.
ghost use Rattle.std.specs.Prelude.{◌≡◌};
ghost use Rattle.benchlog.specs.Kinds.{kind_of, body_length};

use bus::Refusal;

#[derive(Clone, Copy)]
pub enum ItemKind {
    Put = 1,
    Second = 2,
    Push = 3,
    Step = 4,
    Clear = 5,
}

impl ItemKind {
    // How many bytes follow the kind byte.
    pub fn body_length(self) -> usize
        ensures { result ≡ body_length self }
    {
        match self {
            ItemKind::Put => 12,
            ItemKind::Push => 3,
            ItemKind::Second | ItemKind::Step | ItemKind::Clear => 0,
        }
    }
}

// The kind that a byte stands for.
impl TryFrom<u8> for ItemKind {
    type Error = Refusal;

    ghost try_from_gives = { λ byte r. r ≡ kind_of byte };

    fn try_from(byte: u8) -> Result<Self, Refusal> {
        match byte {
            1 => Ok(ItemKind::Put),
            2 => Ok(ItemKind::Second),
            3 => Ok(ItemKind::Push),
            4 => Ok(ItemKind::Step),
            5 => Ok(ItemKind::Clear),
            _ => Err(Refusal::UnknownItem),
        }
    }
}
