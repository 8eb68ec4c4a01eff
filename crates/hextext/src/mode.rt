// How far the reading of a byte has come.
use crate::error::Position;

// What is awaited at a place of a text.
#[derive(Clone, Copy)]
pub enum Mode {
    // A byte, or something that may stand between bytes.
    Between,
    // The second digit of a byte: the value of the first, and its place.
    Second { high: u8, first: Position },
    // The end of a comment.
    Comment,
}

// What one more byte of a text brings.
#[derive(Clone, Copy)]
pub enum Step {
    To(Mode),
    Byte(u8),
}
