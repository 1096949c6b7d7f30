// The search for a string among parts of some bytes.
ghost use Rattle.std.specs.Prelude.{◌≡◌, ◌<◌, length, IfSome};
ghost use Rattle.std.specs.Str.{bytes_eq};
ghost use Rattle.listing.specs.Seen.{part};
ghost use Rattle.pool.specs.Strings.{position, parts};

use lines::shown::part;
use words::Span;

// Whether a part of the bytes is the wanted string.
fn spells(span: Span, bytes: &[u8], wanted: &[u8]) -> bool
    ensures { result ≡ bytes_eq (part bytes.now span) wanted.now }
{
    part(span, bytes) == wanted
}

// The first of the parts that is the wanted string.
pub fn find_in(bytes: &[u8], spans: &[Span], wanted: &[u8]) -> Option<usize>
    ensures value { result ≡ position (parts bytes.now spans.now) wanted.now }
    ensures within { IfSome result (λ i. i < length spans.now) }
{
    spans.iter().position(|span| spells(*span, bytes, wanted))
}
