// The classes of bytes, and how far a run of one class goes.
ghost use Rattle.std.specs.Prelude.{◌≡◌, ◌≤◌, length};
ghost use Rattle.words.specs.Letters.{letter, digit, name_byte, run};
ghost use Rattle.words.specs.Letters.{belongs as in_class};

// What a run of bytes is made of: the bytes of names, of integers, of strings.
// A value and no closure, since definitions name the classes: with a closure each caller would have to say its class again.
#[derive(Clone, Copy)]
pub enum Class {
    Naming,
    Counting,
    Quoted,
}

pub fn is_letter(b: u8) -> bool
    ensures { result ≡ letter b }
{
    b.is_ascii_alphabetic()
}

pub fn is_digit(b: u8) -> bool
    ensures { result ≡ digit b }
{
    b.is_ascii_digit()
}

fn is_name_byte(b: u8) -> bool
    ensures { result ≡ name_byte b }
{
    is_letter(b) || is_digit(b) || b == b'_'
}

impl Class {
    fn holds(self, b: u8) -> bool
        ensures { result ≡ in_class self b }
    {
        match self {
            Class::Naming => is_name_byte(b),
            Class::Counting => is_digit(b),
            Class::Quoted => b >= 32 && b != b'"' && b != 127,
        }
    }
}

// How many bytes at the front are of the class.
pub fn run_length(class: Class, text: &[u8]) -> usize
    ensures within { result ≤ length text.now }
    ensures value { result ≡ run (in_class class) text.now }
{
    text.iter()
        .position(|b| !class.holds(*b))
        .unwrap_or(text.len())
}
