// The domains of atoms. One table, specs/Domains.antt, has all that is particular to a domain:
// a further domain is one more line there and one more case here.
#![tactic(auto)]

ghost use Rattle.std.specs.Prelude.{◌≡◌};
ghost use Rattle.domain.specs.Domains.{word_of, letter_of, domain_of, LettersTell};

#[derive(Clone, Copy, Debug, PartialEq, Eq)]
pub enum Domain {
    Integer,
    String,
    Boolean,
}

impl Domain {
    // The word that names it in a script.
    pub fn word(self) -> &'static str
        ensures { result.now ≡ word_of self }
    {
        match self {
            Domain::Integer => "integer",
            Domain::String => "string",
            Domain::Boolean => "boolean",
        }
    }

    // The letter that names it in headings and formats.
    pub fn letter(self) -> char
        ensures { result ≡ letter_of self }
    {
        match self {
            Domain::Integer => 'i',
            Domain::String => 's',
            Domain::Boolean => 'b',
        }
    }
}

// The domain that a letter of a heading or a format names: the inverse of `letter`, and nothing for any other letter.
// A function and no `TryFrom`: the project's rules name this form, a function from a char with the letters as its cases.
pub fn domain_of(letter: char) -> Option<Domain>
    ensures value { result ≡ domain_of letter }
    ensures inverse { LettersTell }
{
    match letter {
        'i' => Some(Domain::Integer),
        's' => Some(Domain::String),
        'b' => Some(Domain::Boolean),
        _ => None,
    }
}
