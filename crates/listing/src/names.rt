// Names as headings show them. Bytes that are no name, as a foreign script may bring, count as none.
ghost use Rattle.std.specs.Prelude.{◌≡◌, ◌≤◌, length, IfSome};
ghost use Rattle.fault.specs.Limits.{name_bytes};
ghost use Rattle.std.specs.List.{list_all};
ghost use Rattle.words.specs.Letters.{name_byte};
ghost use Rattle.words.specs.Spans.{bytes_of};
ghost use Rattle.domain.specs.Domains.{letter_of};
ghost use Rattle.texts.specs.Language.{is_name};
ghost use Rattle.listing.specs.Seen.{title_of};

use domain::Domain;
use fault::limits::NAME_BYTES;
use schema::Attribute;

fn all_name_bytes(bytes: &[u8]) -> bool
    ensures { result ≡ list_all name_byte bytes.now }
{
    bytes
        .iter()
        .all(|b| b.is_ascii_alphanumeric() || *b == b'_')
}

// A letter, then letters, digits and underscores, at most `NAME_BYTES` in all.
pub fn is_name(bytes: &[u8]) -> bool
    ensures { result ≡ is_name bytes.now }
{
    match bytes {
        [first, others @ ..] => first.is_ascii_alphabetic()
            && all_name_bytes(others)
            && others.len() < NAME_BYTES,
        [] => false,
    }
}

// The name that a heading has for an attribute: its part of the script, if that is a name.
pub fn title<'a>(attribute: Attribute, script: &'a [u8]) -> Option<&'a [u8]>
    ensures value { bytes_of result ≡ title_of script.now attribute }
    ensures short { IfSome result (λ n. length n.now ≤ name_bytes) }
{
    attribute.name(script).filter(|name| is_name(name))
}

// The letter of a domain, as a byte of a line.
pub fn letter_byte(domain: Domain) -> u8
    ensures { result ≡ letter_of domain }
{
    domain.letter() as u8
}
