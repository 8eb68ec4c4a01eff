// The forms of a log.

// As bytes, or as text of hexadecimal digits.
#[derive(Clone, Copy)]
pub enum Form {
    Binary,
    Hex,
}
