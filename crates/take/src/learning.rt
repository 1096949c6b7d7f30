// The first passage over a text: is it right, and which strings does it bring?
ghost use Rattle.std.specs.Prelude.{◌≡◌, ◌≤◌, length};
ghost use Rattle.fault.specs.Limits.{text_bytes};
ghost use Rattle.texts.specs.Reading.{read_body, read_table};
ghost use Rattle.listing.specs.Seen.{ReadsAs};
ghost use Rattle.listing.specs.Whole.{replied};
ghost use Rattle.take.specs.Taking.{learnt, with_learned};
ghost use Rattle.take.specs.Supplies.{text_of, columns_of, column_domains, known_of, learned_from};

use crate::supply::Supply;
use fault::Fault;
use listing::Reader;
use pool::Fresh;

impl<'a> Supply<'a> {
    // Reads the rows, `end` and the text's end, and learns the strings.
    fn learn_rows(self, reader: &mut Reader<'_>, fresh: &mut Fresh) -> Result<(), Fault>
        requires { text_of self ≡ reader.old.text.now }
        ensures { ReadsAs (λ _ _. learned_from self.entry fresh.new) (λ s. learnt (known_of self.entry) (learned_from self.entry fresh.old) (read_body (column_domains self.entry) s)) reader.old reader.new result }
    {
        while reader.at_row() {
            let cells = reader.row(self.schema)?;
            fresh.learn_row(self.source, &cells[..self.schema.width()]);
        }
        reader.end()
    }

    // Reads a whole text and learns its strings.
    pub(crate) fn learn_text(self, fresh: &mut Fresh) -> Result<(), Fault>
        requires { length (text_of self) ≤ text_bytes }
        ensures { with_learned result (learned_from self.entry fresh.new) ≡ replied (text_of self.entry) (learnt (known_of self.entry) (learned_from self.entry fresh.old) (read_table (columns_of self.entry) (text_of self.entry))) }
    {
        let mut reader = Reader::new(self.source.text);
        reader.heading(self.schema, self.script)?;
        self.learn_rows(&mut reader, fresh)
    }
}
