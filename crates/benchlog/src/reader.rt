// The reader of a log.
ghost use Rattle.std.specs.Prelude.{◌≤◌, length};

// A log, and how many of its bytes were read.
#[derive(Drop)]
pub struct Reader<'a> {
    pub(crate) log: &'a [u8],
    pub(crate) cursor: usize,
    ghost within: { cursor ≤ length log.now },
}
