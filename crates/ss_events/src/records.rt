// The records of an event file, one after the other.

ghost use Rattle.std.specs.Prelude.{◌≡◌, [], ◌∷◌, true, false, List, ℕ, IfOk, IfErr};
ghost use Rattle.std.specs.Bool.{MatchBool};
ghost use Rattle.csv.specs.Reading.{error_kind, reader_state, stops_reader};
ghost use Rattle.csv.specs.Records.{fields_of};
ghost use Rattle.ss_events.specs.Records.{IsReading, records_left, records_of, source};
ghost use Rattle.ss_events.specs.declared.fault.EventsFault.TheVariants.{Memory};

use crate::fault::EventsFault;
use csv::{ByteRecord, Error, ErrorKind, Reader, ReaderBuilder};
use std::alloc::Global;
use std::marker::Model;

/// The records that are left of an event file.
#[derive(Drop)]
pub(crate) struct Records<'a> {
    reader: Reader<&'a [u8]>,
    // Whether records may follow: nothing is known of a reader after its end or an error.
    between: bool,
}

impl<'a> Model for Records<'a> {
    ghost Value = { List (List (List ℕ)) };

    ghost view = { λ r. records_left r.between (source r.reader) (reader_state r.reader) };

    ghost invariant = { λ r. r.between ≡ true → IsReading r.reader };
}

impl<'a> Records<'a> {
    /// All the records of a file: fields between commas, quoted by double quotes, as many as there
    /// are, none of them taken for a header.
    pub(crate) fn new(alloc: Global, bytes: &'a [u8]) -> Records<'a>
        ensures { result ≡ records_of bytes.now }
    {
        let reader = ReaderBuilder::new()
            .has_headers(false)
            .flexible(true)
            .from_reader(alloc, bytes);
        Records {
            reader,
            between: true,
        }
    }

    /// Takes the next record into `row`, and says whether there was one.
    pub(crate) fn next(&mut self, row: &mut ByteRecord) -> Result<bool, EventsFault>
        ensures found { IfOk result (λ found.
            MatchBool found (self.old ≡ fields_of row.new ∷ self.new) (self.old ≡ [])) }
        ensures memory { IfErr result (λ e. e ≡ Memory) }
    {
        if !self.between {
            return Ok(false);
        }
        self.between = false;
        match self.reader.read_byte_record(row) {
            Ok(found) => {
                self.between = found;
                Ok(found)
            }
            Err(error) => Err(memory_of(error)),
        }
    }
}

// The reader reads a slice, so that it can only have wanted memory.
fn memory_of(error: Error) -> EventsFault
    requires { stops_reader (error_kind error) ≡ true }
    ensures { result ≡ Memory }
{
    match error.into_kind() {
        ErrorKind::OutOfMemory | ErrorKind::Io(_) => EventsFault::Memory,
        _ => unreachable!(),
    }
}
