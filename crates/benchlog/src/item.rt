// A log item.
ghost use Rattle.std.specs.Prelude.{◌≡◌, length};
ghost use Rattle.benchlog.specs.Kinds.{body_length};

use crate::kind::ItemKind;

// Its kind, its body, which is a part of the log, and the place of its kind byte in the log.
#[derive(Clone, Copy)]
pub struct Item<'a> {
    pub(crate) kind: ItemKind,
    pub(crate) body: &'a [u8],
    pub(crate) place: usize,
    ghost whole: { length body.now ≡ body_length kind },
}
