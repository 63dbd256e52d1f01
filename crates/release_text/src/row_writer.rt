// Rows as the crate csv writes them.
ghost use Rattle.std.specs.Prelude.{◌≡◌, ℕ, List, [], ◌∷◌, ◌++◌, IfOk, OnOk, map, chars, encode_utf8_all};
ghost use Rattle.csv.specs.Records.{fields_of, partial_of};
ghost use Rattle.vtl_values.specs.Texts.{text_of};
ghost use Rattle.release_text.specs.Rows.{HasWritten, row};

use csv::{ByteRecord, Writer, WriterBuilder};
use std::alloc::{AllocError, Global};
use vtl_values::{Value, Word, show_value_in};

/// A writer of rows, each of any number of fields. The text of a value stands in `shown` before it goes to the row.
#[derive(Drop)]
pub(crate) struct RowWriter {
    rows: Writer<Vec<u8>>,
    row: ByteRecord,
    shown: String,
}

impl RowWriter {
    /// A writer that goes on after the text.
    pub(crate) fn after(alloc: Global, text: Vec<u8>) -> RowWriter
        ensures { HasWritten result text.items [] }
    {
        RowWriter {
            rows: WriterBuilder::new().flexible(true).from_writer(text),
            row: ByteRecord::new(alloc),
            shown: String::new(alloc),
        }
    }

    /// Puts a text after those of the next row.
    pub(crate) fn push(&mut self, text: &Word) -> Result<(), AllocError>
        ensures { (written : List ℕ) → (texts : List (List ℕ)) → HasWritten self.old written texts
            → OnOk result (HasWritten self.new written (texts ++ text.now ∷ [])) }
    {
        self.row.push_field(text.as_str().as_bytes())
    }

    /// Puts the text of a value after those of the next row.
    fn push_value(&mut self, value: &Value) -> Result<(), AllocError>
        ensures { (written : List ℕ) → (texts : List (List ℕ)) → HasWritten self.old written texts
            → OnOk result (HasWritten self.new written (texts ++ text_of value.now ∷ [])) }
    {
        show_value_in(&mut self.shown, value)?;
        push_text(&mut self.row, self.shown.as_str())
    }

    /// Puts the texts of the values after those of the next row.
    pub(crate) fn push_values(&mut self, values: &[Value]) -> Result<(), AllocError>
        ensures { (written : List ℕ) → (texts : List (List ℕ)) → HasWritten self.old written texts
            → OnOk result (HasWritten self.new written (texts ++ map text_of values.now)) }
    {
        for value in values {
            self.push_value(value)?;
        }
        Ok(())
    }

    /// Writes the next row.
    pub(crate) fn end_row(&mut self) -> Result<(), AllocError>
        ensures { (written : List ℕ) → (texts : List (List ℕ)) → HasWritten self.old written texts
            → OnOk result (HasWritten self.new (written ++ row texts) []) }
    {
        let Ok(()) = self.rows.write_byte_record(&self.row) else {
            return Err(AllocError);
        };
        self.row.clear();
        Ok(())
    }

    /// The rows that are written.
    pub(crate) fn into_text(self) -> Result<Vec<u8>, AllocError>
        ensures { (written : List ℕ) → (texts : List (List ℕ)) → HasWritten self written texts
            → IfOk result (λ text. text.items ≡ written) }
    {
        self.rows.into_inner().map_err(|_| AllocError)
    }
}

fn push_text(row: &mut ByteRecord, text: &str) -> Result<(), AllocError>
    ensures fields { OnOk result (fields_of row.new ≡ fields_of row.old ++ (partial_of row.old ++ encode_utf8_all (chars text.now)) ∷ []) }
    ensures partial { OnOk result (partial_of row.new ≡ []) }
{
    row.push_field(text.as_bytes())
}
