// The words of a text.
ghost use Rattle.std.specs.Prelude.{◌≡◌, ◌≤◌, length};
ghost use Rattle.std.specs.List.{prefix_len, suffix_len};
ghost use Rattle.hextext.specs.Words.{is_of_word, word_about};

use crate::reading::is_gap;

/// The word about an offset of a text: what stands together there, between gaps and comments.
pub fn word_about(text: &[u8], offset: usize) -> &[u8]
    ensures { result.now ≡ word_about text.now offset }
{
    let (front, back) = text.split_at(offset.min(text.len()));
    let start = front.len() - length_at_end(front);
    let end = front.len() + length_at_start(back);
    &text[start..end]
}

// How much of a word stands at the start of these bytes.
fn length_at_start(bytes: &[u8]) -> usize
    ensures value { result ≡ prefix_len is_of_word bytes.now }
    ensures within { result ≤ length bytes.now }
{
    bytes.iter().take_while(|byte| is_of_word(**byte)).count()
}

// How much of a word stands at their end.
fn length_at_end(bytes: &[u8]) -> usize
    ensures value { result ≡ suffix_len is_of_word bytes.now }
    ensures within { result ≤ length bytes.now }
{
    bytes
        .iter()
        .rev()
        .take_while(|byte| is_of_word(**byte))
        .count()
}

// Whether a byte is part of a word: it is no gap, and begins no comment.
fn is_of_word(byte: u8) -> bool
    ensures { result ≡ is_of_word byte }
{
    !(is_gap(byte) || byte == b'#')
}
