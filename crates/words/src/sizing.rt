// From bytes to a text: the first test that a script passes.
ghost use Rattle.std.specs.Prelude.{◌≡◌};
ghost use Rattle.words.specs.Sizes.{Sized, text_bytes};

use crate::texts::Text;
use fault::limits::SCRIPT_BYTES;
use fault::{Fault, Place, Rule};

// Bytes that are no text, handed back with the fault.
#[derive(Drop)]
pub struct Oversized {
    pub fault: Fault,
    pub bytes: Vec<u8>,
}

impl Text {
    // A text of these bytes; more than SCRIPT_BYTES come back as they were, with fault 1.
    pub fn new(bytes: Vec<u8>) -> Result<Text, Oversized>
        ensures { Sized bytes result }
    {
        if bytes.len() > SCRIPT_BYTES {
            return Err(Oversized {
                fault: Place::NOWHERE.fault(Rule::TextTooLong),
                bytes,
            });
        }
        Ok(Text { bytes })
    }

    pub fn bytes(&self) -> &[u8]
        ensures { result.now ≡ text_bytes self.now }
    {
        self.bytes.as_slice()
    }

    // The bytes again, for whoever lent them.
    pub fn release(self) -> Vec<u8>
        ensures { result.items ≡ text_bytes self }
    {
        let Text { bytes } = self;
        bytes
    }
}
