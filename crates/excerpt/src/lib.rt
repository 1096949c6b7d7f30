// Shows a place of a text to a person: its line, and a caret under the byte.
// Every byte takes one column, so that the caret stands right whatever the text holds.
#![tactic(auto)]

ghost use Rattle.std.specs.Prelude.{◌≡◌};
ghost use Rattle.excerpt.specs.Excerpts.{LineStart, LineEnd, printed};

use memchr::{memchr, memrchr};

// Where the line of a byte begins: behind the last line feed before it.
pub fn line_start(text: &[u8], byte: usize) -> usize
    ensures { LineStart text.now byte result }
{
    let before = &text[..byte.min(text.len())];
    match memrchr(b'\n', before) {
        Some(feed) => feed + 1,
        None => 0,
    }
}

// Where the line of a byte ends: at the first line feed from it on, or at the text's end.
pub fn line_end(text: &[u8], byte: usize) -> usize
    ensures { LineEnd text.now byte result }
{
    let start = byte.min(text.len());
    match memchr(b'\n', &text[start..]) {
        Some(feed) => start + feed,
        None => text.len(),
    }
}

// A byte as it is shown: printable ASCII as it stands, a tab as a space, anything else as a question mark.
pub fn shown(b: u8) -> char
    ensures { result ≡ printed b }
{
    match b {
        32..=126 => b as char,
        b'\t' => ' ',
        _ => '?',
    }
}
