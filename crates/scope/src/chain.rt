// The scope chain: nested lists of entries, one behind the other in a slice. The outermost begins at 0, each other one at its start.
// A name is sought from the innermost list outward, in each list the newest entry first.
ghost use Rattle.std.specs.Prelude.{◌≡◌, ℕ, ◌<◌, List, reverse, length, Some, Option as Maybe, slice_index_or};
ghost use Rattle.scope.specs.Names.{called, named};
ghost use Rattle.scope.specs.Chains.{newest_of, position_of, find as found, cut, place_of, Found, Search};

use crate::places::Place;

// An entry that may have a name, which a text spells.
pub trait Named: Sized {
    ghost spelling: { List ℕ → Self → Maybe (List ℕ) };

    fn is(&self, text: &[u8], name: &[u8]) -> bool
        ensures { result ≡ called (spelling text.now self.now) name.now };
}

// The position of the newest entry with this name in one list.
pub fn newest<E: Named>(entries: &[E], text: &[u8], name: &[u8]) -> Option<usize>
    ensures value { result ≡ position_of (newest_of (named E.Named.spelling text.now name.now) entries.now) }
    ensures inside { (k : ℕ) → result ≡ Some k → k < length entries.now }
{
    entries.iter().rposition(|entry| entry.is(text, name))
}

// The newest entry with this name in the innermost list that has one. A start behind the entries begins an empty list.
pub fn find<E: Named>(entries: &[E], starts: &[usize], text: &[u8], name: &[u8]) -> Option<Place>
    ensures value { let lists = cut (reverse starts.now) entries.now in result ≡ place_of (found (named E.Named.spelling text.now name.now) lists) }
    ensures search { let is = named E.Named.spelling text.now name.now in let lists = cut (reverse starts.now) entries.now in Search is lists (found is lists) }
    ensures entry { let is = named E.Named.spelling text.now name.now in let lists = cut (reverse starts.now) entries.now in (f : Found E) → found is lists ≡ Some f → (f.number < length entries.now) × ((d : E) → slice_index_or entries.now f.number d ≡ f.entry) }
{
    let mut left = entries;
    for (outward, start) in starts.iter().rev().enumerate() {
        let from = (*start).min(left.len());
        if let Some(position) = newest(&left[from..], text, name) {
            return Some(Place {
                distance: outward,
                position,
                number: from + position,
            });
        }
        left = &left[..from];
    }
    let position = newest(left, text, name)?;
    Some(Place {
        distance: starts.len(),
        position,
        number: position,
    })
}
