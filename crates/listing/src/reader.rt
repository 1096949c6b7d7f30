// A reader: a supplied text, and how far it is read. Nothing of the text is copied.
ghost use Rattle.std.specs.Prelude.{◌≤◌, length};
ghost use Rattle.fault.specs.Limits.{text_bytes};

#[derive(Drop)]
pub struct Reader<'a> {
    pub(crate) text: &'a [u8],
    pub(crate) at: usize,
    ghost within: { at ≤ length text.now },
    ghost short: { length text.now ≤ text_bytes },
}
