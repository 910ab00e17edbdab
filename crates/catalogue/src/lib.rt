// The catalogue's text: its records, read one at a time, and how many there are.
#![tactic(auto)]

ghost use Rattle.std.specs.Prelude.{◌≡◌, option_copied, option_map, length};
ghost use Rattle.std.specs.Iterator.{at_most};
ghost use Rattle.type_info.specs.Ascii.{ascii};
ghost use Rattle.model.specs.Fields.{take_field};
ghost use Rattle.model.specs.CatalogueText.{is_declared, read_declared, read_flag, take_record};
ghost use Rattle.model.specs.Call.{records_of};
ghost use Rattle.text.specs.Reads.{Reads, ReadsOrKeeps};
ghost use Rattle.text.specs.Counts.{length_of, counted_as};
ghost use Rattle.catalogue.specs.Records.{record_of, GivesRecord};

use refusal::Refusal;
use text::Reader;

// The most records that a catalogue may have.
const MOST: usize = 4096;

// A record as it was read.
#[derive(Clone, Copy)]
pub struct Record<'a> {
    pub db: u64,
    pub page: u64,
    pub col: u64,
    pub declared: &'a [u8],
    pub notnull: bool,
}

// The records of a text, one after the other: what is left of it. None comes after one that is ill-formed.
#[derive(Drop)]
pub struct Records<'a> {
    pub reader: Reader<'a>,
}

impl<'a> Records<'a> {
    // Those of a whole text.
    pub fn new(catalogue: &'a [u8]) -> Records<'a>
        ensures { result.reader.rest.now ≡ catalogue.now }
    {
        Records {
            reader: Reader { rest: catalogue },
        }
    }
}

impl<'a> Iterator for Records<'a> {
    type Item = Result<Record<'a>, Refusal>;

    ghost next_gives = { GivesRecord };

    ghost remaining = { λ s. at_most (length s.reader.rest.now) };

    fn next(&mut self) -> Option<Result<Record<'a>, Refusal>> {
        if self.reader.rest.is_empty() {
            return None;
        }
        let record = read_record(&mut self.reader).ok_or(Refusal::IllFormedCatalogue);
        if record.is_err() {
            self.reader.rest = &[];
        }
        Some(record)
    }
}

// Whether t can be a declared type.
fn is_declared(t: &[u8]) -> bool
    ensures { result ≡ is_declared t.now }
{
    t.len() <= 64 && type_info::all_printable(t)
}

// The declared type of the record.
fn declared<'a>(reader: &mut Reader<'a>) -> Option<&'a [u8]>
    ensures { Reads (take_field (ascii "type=") read_declared) reader.old.rest.now reader.new.rest.now (option_copied result) }
{
    reader.value(b"type=").filter(|t| is_declared(t))
}

// The flag of the record.
fn notnull(reader: &mut Reader) -> Option<bool>
    ensures { Reads (take_field (ascii "notnull=") read_flag) reader.old.rest.now reader.new.rest.now result }
{
    match reader.value(b"notnull=")? {
        b"0" => Some(false),
        b"1" => Some(true),
        _ => None,
    }
}

// The record that stands first.
pub fn read_record<'a>(reader: &mut Reader<'a>) -> Option<Record<'a>>
    ensures { ReadsOrKeeps take_record reader.old.rest.now reader.new.rest.now (option_map record_of result) }
{
    let mut ahead = *reader;
    let record = Record {
        db: ahead.number(b"db=", 1)?,
        page: ahead.number(b"page=", 2147483647)?,
        col: ahead.number(b"col=", 65535)?,
        declared: declared(&mut ahead)?,
        notnull: notnull(&mut ahead)?,
    };
    *reader = ahead;
    Some(record)
}

// How many records there are. A text that is ill-formed anywhere is refused as such, however many records it has.
pub fn count_records(catalogue: &[u8]) -> Result<usize, Refusal>
    ensures { counted_as result ≡ length_of (records_of catalogue.now) }
{
    let mut k: usize = 0;
    for record in Records::new(catalogue) {
        record?;
        k += 1;
    }
    if MOST < k {
        return Err(Refusal::TooManyLines);
    }
    Ok(k)
}
