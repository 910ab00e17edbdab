// Replays vectors through the entry, and says which of them disagree. They stand in the files that the input names, one a line;
// tests/vectors.py makes them. A line of such a file is one of these, and any other says nothing:
//
//     case NAME               a new case: the listing begins as the last `keep` left it, area and room have their usual sizes
//     Integer 7 1 0 6869      a row of the listing: operation, P1, P2, P3, and P4 in hexadecimal if there is one
//     text TEXT               TEXT as it is, at the end of the listing: `|` is LF, `\` and two hexadecimal digits are a byte
//     tables TEXT             the same, at the end of the catalogue, which stays from case to case
//     no tables               the catalogue is empty from here on
//     again N                 the line before, N more times
//     keep                    cases begin with the rows that are in the listing now
//     drop                    cases begin with nothing, and the listing is empty
//     area N, room N          how many bytes of the area and of the answer buffer are lent
//     answer 2 5 0 0 0        what must come out: columns, charged, loopstops, gasstops, repeats
//     col Integer no          its next column: kind, blank
//     gives N                 calls the entry, which must give the number N, and compares
//
// Compared are the number, the length, the answer, that the buffer behind it (on a refusal the whole buffer) was not written, and
// that the area is zero. Printed are the disagreements, how many cases each file has, and how often the entry gave each number.
#![tactic(auto)]

ghost use Rattle.std.specs.Prelude.{◌≡◌, ◌<◌, ◌/◌, ◌%◌, length, take, drop, All, IsTrue, OnOk, IfSome};

use itoa::Buffer;
use reading::read_full;
use std::fs::File;
use std::rt::Files;
use std::{fmt, io};

// What the entry's number is multiplied by, and the length is added to.
const NUMBER: u64 = 4294967296;

// What the lent bytes hold before a call.
const AREA_FILL: u8 = 165;

const ANSWER_FILL: u8 = 90;

// What a case is lent if it says nothing else.
const AREA: usize = 65536;

const ROOM: usize = 4096;

// The most that a case can be lent.
const AREA_MOST: usize = 6291456;

const ROOM_MOST: usize = 131072;

// The most bytes of the names of files, of a file, of a listing, of a catalogue, and of an answer that is expected. A text that has as many is full.
const NAMES_MOST: usize = 4096;

const FILE_MOST: usize = 524288;

const LISTING_MOST: usize = 131072;

const CATALOGUE_MOST: usize = 262144;

const EXPECTED_MOST: usize = 131072;

// What stands between the fields of a row, an answer and a column, and the first of each. A field behind the last stands there with nothing between.
const LABELS: [&str; 9] = [
    "\np1=",
    "\np2=",
    "\np3=",
    "\np4=",
    "\ncharged=",
    "\nloopstops=",
    "\ngasstops=",
    "\nrepeats=",
    "\nnull=",
];

const ROW: u8 = 0;

const ANSWER: u8 = 4;

const COLUMN: u8 = 8;

// A line of the vectors.
#[derive(Clone, Copy)]
enum Line<'a> {
    Case,
    Row(&'a [u8]),
    Text(&'a [u8]),
    Tables(&'a [u8]),
    NoTables,
    Again(u64),
    Keep,
    Drop,
    Area(usize),
    Room(usize),
    Answer(&'a [u8]),
    Column(&'a [u8]),
    Gives(u64),
    Other,
}

impl Line<'_> {
    fn parse(line: &[u8]) -> Line<'_> {
        if line.first().is_some_and(|b| b.is_ascii_uppercase()) {
            Line::Row(line)
        } else if line.starts_with(b"case ") {
            Line::Case
        } else if let Some(text) = line.strip_prefix(b"text ") {
            Line::Text(text)
        } else if let Some(text) = line.strip_prefix(b"tables ") {
            Line::Tables(text)
        } else if line.starts_with(b"no tables") {
            Line::NoTables
        } else if let Some(times) = line.strip_prefix(b"again ") {
            Line::Again(read_number(times))
        } else if line.starts_with(b"keep") {
            Line::Keep
        } else if line.starts_with(b"drop") {
            Line::Drop
        } else if let Some(bytes) = line.strip_prefix(b"area ") {
            Line::Area(read_number(bytes) as usize)
        } else if let Some(bytes) = line.strip_prefix(b"room ") {
            Line::Room(read_number(bytes) as usize)
        } else if let Some(fields) = line.strip_prefix(b"answer ") {
            Line::Answer(fields)
        } else if let Some(fields) = line.strip_prefix(b"col ") {
            Line::Column(fields)
        } else if let Some(given) = line.strip_prefix(b"gives ") {
            Line::Gives(read_number(given))
        } else {
            Line::Other
        }
    }
}

// The value of a hexadecimal digit; of any other byte a number below 16. A crate of it for both programs that replay would be longer.
fn digit(byte: u8) -> u8
    ensures { result < 16 }
{
    if byte < b'a' {
        return byte % 16;
    }
    (byte - b'a' + 10) % 16
}

// The number that a text is, in decimal; what goes beyond ten digits is left out.
fn read_number(text: &[u8]) -> u64 {
    text.iter().fold(0, |n, &byte| {
        if n < 1000000000 {
            n * 10 + digit(byte) as u64
        } else {
            n
        }
    })
}

// How what a call left differs from what it must leave, or why there was none.
#[derive(Clone, Copy)]
enum Difference {
    NotFitting,
    NotThere,
    Number { is: u64, must: u64 },
    Length { is: u64, must: u64 },
    Answer,
    Behind,
    Area,
}

impl fmt::Display for Difference {
    fn fmt<W: fmt::Write>(&self, f: &mut fmt::Formatter<W>) -> fmt::Result {
        match self {
            Difference::NotFitting => write!(f, "a text does not fit"),
            Difference::NotThere => write!(f, "more is lent than there is"),
            Difference::Number { is, must } => write!(f, "number {is} and not {must}"),
            Difference::Length { is, must } => write!(f, "length {is} and not {must}"),
            Difference::Answer => write!(f, "the answer's bytes"),
            Difference::Behind => write!(f, "bytes behind the answer"),
            Difference::Area => write!(f, "the area is not zero"),
        }
    }
}

// Whether each byte of s is this one: the first, and each the one before it. Slices are compared many bytes at once.
fn all_are(s: &[u8], byte: u8) -> bool
    ensures { IsTrue result → All (λ b. b ≡ byte) s.now }
{
    match s {
        [] => true,
        [first, rest @ ..] => *first == byte && rest == &s[..rest.len()],
    }
}

// Whether a call that gave `given` left what it must: this number, the answer that is expected and its length, and nothing else.
fn compare(
    number: u64,
    expected: &[u8],
    given: u64,
    area: &[u8],
    answer: &[u8],
) -> Result<(), Difference>
    ensures number { OnOk result (given / 4294967296 ≡ number) }
    ensures length { OnOk result (given % 4294967296 ≡ length expected.now) }
    ensures answer { OnOk result (take (length expected.now) answer.now ≡ expected.now) }
    ensures behind { OnOk result (All (λ b. b ≡ 90) (drop (length expected.now) answer.now)) }
    ensures area { OnOk result (All (λ b. b ≡ 0) area.now) }
{
    let is = given / NUMBER;
    if is != number {
        return Err(Difference::Number { is, must: number });
    }
    let is = given % NUMBER;
    let must = expected.len() as u64;
    if is != must {
        return Err(Difference::Length { is, must });
    }
    let Some(behind) = answer.strip_prefix(expected) else {
        return Err(Difference::Answer);
    };
    if !all_are(behind, ANSWER_FILL) {
        return Err(Difference::Behind);
    }
    if !all_are(area, 0) {
        return Err(Difference::Area);
    }
    Ok(())
}

// The byte that a text begins with, and the text behind it: `|` is LF, and `\` and two hexadecimal digits are a byte.
fn next_byte(text: &[u8]) -> Option<(u8, &[u8])>
    ensures { IfSome result (λ found. length found.1.now < length text.now) }
{
    match text {
        [b'|', rest @ ..] => Some((b'\n', rest)),
        [b'\\', high, low, rest @ ..] => Some((digit(*high) * 16 + digit(*low), rest)),
        [byte, rest @ ..] => Some((*byte, rest)),
        [] => None,
    }
}

// A text that is written into a buffer; what does not fit is left out.
#[derive(Drop)]
struct Text<'a> {
    out: &'a mut [u8],
    len: usize,
}

impl<'a> Text<'a> {
    fn new(out: &'a mut [u8]) -> Self {
        Text { out, len: 0 }
    }

    // What was written. `len` is never above the buffer's length; to ask spares a ghost field that says so.
    fn bytes(&self) -> &[u8] {
        self.out.get(..self.len).unwrap_or_default()
    }

    fn is_full(&self) -> bool {
        self.out.len() <= self.len
    }

    fn push(&mut self, byte: u8) {
        if let Some(place) = self.out.get_mut(self.len) {
            *place = byte;
            self.len += 1;
        }
    }

    fn put(&mut self, text: &str) {
        for &byte in text.as_bytes() {
            self.push(byte);
        }
    }

    fn put_number(&mut self, number: u64) {
        let mut digits = Buffer::new();
        self.put(digits.format(number));
    }

    // Writes a text in which `|` is LF, and `\` and two hexadecimal digits are a byte.
    fn put_raw(&mut self, text: &[u8]) {
        let mut rest = text;
        while let Some((byte, behind)) = next_byte(rest) {
            self.push(byte);
            rest = behind;
        }
    }

    // Writes fields, with a label for each space between them, and says which label would be next.
    fn put_fields(&mut self, first: u8, fields: &[u8]) -> u8 {
        let mut label = first;
        for &byte in fields {
            if byte == b' ' {
                if let Some(text) = LABELS.get(label as usize) {
                    self.put(text);
                }
                label = label.wrapping_add(1);
            } else {
                self.push(byte);
            }
        }
        label
    }
}

// A part of a file's text.
#[derive(Clone, Copy, Default)]
struct Span {
    from: usize,
    to: usize,
}

impl Span {
    // That part of a text, or nothing where there is none.
    fn of(self, text: &[u8]) -> &[u8] {
        text.get(self.from..self.to).unwrap_or_default()
    }
}

// A listing so far, and how many of its rows and bytes each case begins with.
#[derive(Drop)]
struct Listing<'a> {
    text: Text<'a>,
    rows: u64,
    kept_len: usize,
    kept_rows: u64,
}

impl<'a> Listing<'a> {
    fn new(out: &'a mut [u8]) -> Self {
        Listing {
            text: Text::new(out),
            rows: 0,
            kept_len: 0,
            kept_rows: 0,
        }
    }

    // A row without a P4 has an empty one.
    fn add_row(&mut self, fields: &[u8]) {
        self.text.put("addr=");
        self.text.put_number(self.rows);
        self.text.put("\nop=");
        let label = self.text.put_fields(ROW, fields);
        let end = if label < ANSWER { "\np4=\n" } else { "\n" };
        self.text.put(end);
        self.rows = self.rows.wrapping_add(1);
    }

    fn keep(&mut self) {
        self.kept_len = self.text.len;
        self.kept_rows = self.rows;
    }

    // Leaves what was kept.
    fn restart(&mut self) {
        self.text.len = self.kept_len;
        self.rows = self.kept_rows;
    }

    fn clear(&mut self) {
        self.text.len = 0;
        self.rows = 0;
        self.keep();
    }
}

// What the lines so far have built, what the next call is lent, and what the calls gave. A case's name and the last line are looked for in the file
// that is replayed: in the next one they are what stands at these places.
#[derive(Drop)]
struct Replay<'a> {
    case: Span,
    last: Span,
    listing: Listing<'a>,
    catalogue: Text<'a>,
    expected: Text<'a>,
    columns: u64,
    area: &'a mut [u8],
    lent: usize,
    answer: &'a mut [u8],
    room: usize,
    calls: u64,
    disagree: u64,
    numbers: [u64; 13],
}

impl Replay<'_> {
    // The case's name is the last line.
    fn begin_case(&mut self) {
        self.case = self.last;
        self.listing.restart();
        self.expected.len = 0;
        self.lent = AREA;
        self.room = ROOM;
    }

    fn expect(&mut self, fields: &[u8]) {
        self.columns = 0;
        self.expected.len = 0;
        self.expected.put("columns=");
        self.expected.put_fields(ANSWER, fields);
        self.expected.push(b'\n');
    }

    fn expect_column(&mut self, fields: &[u8]) {
        self.expected.put("col=");
        self.expected.put_number(self.columns);
        self.columns = self.columns.wrapping_add(1);
        self.expected.put("\ntype=");
        self.expected.put_fields(COLUMN, fields);
        self.expected.push(b'\n');
    }

    fn build(&mut self, line: Line<'_>) {
        match line {
            Line::Case => self.begin_case(),
            Line::Row(fields) => self.listing.add_row(fields),
            Line::Text(text) => self.listing.text.put_raw(text),
            Line::Tables(text) => self.catalogue.put_raw(text),
            Line::NoTables => self.catalogue.len = 0,
            Line::Keep => self.listing.keep(),
            Line::Drop => self.listing.clear(),
            Line::Area(bytes) => self.lent = bytes,
            Line::Room(bytes) => self.room = bytes,
            Line::Answer(fields) => self.expect(fields),
            Line::Column(fields) => self.expect_column(fields),
            Line::Again(_) | Line::Gives(_) | Line::Other => {}
        }
    }

    fn again(&mut self, times: u64, line: Line<'_>) {
        for _ in 0..times {
            self.build(line);
        }
    }

    fn count(&mut self, number: u64) {
        if let Some(count) = self.numbers.get_mut(number as usize) {
            *count = count.wrapping_add(1);
        }
    }

    // Whether a text did not fit.
    fn is_full(&self) -> bool {
        self.listing.text.is_full() || self.catalogue.is_full() || self.expected.is_full()
    }

    // Calls the entry on what the case has built, all of it lent. A refusal has no answer.
    fn call(&mut self, number: u64) -> Result<(), Difference> {
        if self.is_full() {
            return Err(Difference::NotFitting);
        }
        if self.area.len() < self.lent || self.answer.len() < self.room {
            return Err(Difference::NotThere);
        }
        let area = &mut self.area[..self.lent];
        let answer = &mut self.answer[..self.room];
        area.fill(AREA_FILL);
        answer.fill(ANSWER_FILL);
        let listing = self.listing.text.bytes();
        let given = column_kinds::column_kinds(listing, self.catalogue.bytes(), area, answer);
        let expected = self.expected.bytes();
        let length = if number == 0 { expected.len() } else { 0 };
        let compared = compare(number, &expected[..length], given, area, answer);
        self.count(given / NUMBER);
        compared
    }

    fn gives(&mut self, rt: &impl Print, text: &[u8], number: u64) -> io::Result<()> {
        self.calls = self.calls.wrapping_add(1);
        match self.call(number) {
            Ok(()) => Ok(()),
            Err(difference) => {
                self.disagree = self.disagree.wrapping_add(1);
                rt.write_all(self.case.of(text))?;
                println!(rt; ": {difference}")
            }
        }
    }

    // The line that stands here.
    fn line(&mut self, rt: &impl Print, text: &[u8], at: Span) -> io::Result<()> {
        match Line::parse(at.of(text)) {
            Line::Again(times) => {
                let last = self.last.of(text);
                self.again(times, Line::parse(last));
                Ok(())
            }
            Line::Gives(number) => self.gives(rt, text, number),
            line => {
                self.last = at;
                self.build(line);
                Ok(())
            }
        }
    }

    // Replays the lines of a file.
    fn lines(&mut self, rt: &impl Print, text: &[u8]) -> io::Result<()> {
        let mut from: usize = 0;
        for line in text.split_inclusive(|b| *b == b'\n') {
            let len = line.strip_suffix(b"\n").unwrap_or(line).len();
            let to = from.wrapping_add(len);
            self.line(rt, text, Span { from, to })?;
            from = from.wrapping_add(line.len());
        }
        Ok(())
    }

    // Replays a file, from an empty listing and an empty catalogue on, and prints how many cases it had.
    fn file(&mut self, rt: &(impl Files + Print), buf: &mut [u8], name: &[u8]) -> io::Result<()> {
        let before = self.calls;
        let text = read_file(rt, name, buf)?;
        self.listing.clear();
        self.catalogue.len = 0;
        self.lines(rt, text)?;
        rt.write_all(name)?;
        println!(rt; ": {} cases", self.calls.wrapping_sub(before))
    }

    fn print_totals(&self, rt: &impl Print) -> io::Result<()> {
        for (number, count) in self.numbers.iter().enumerate() {
            println!(rt; "number {number}: {count}")?;
        }
        println!(rt; "{} cases, {} disagree", self.calls, self.disagree)
    }
}

// Opens the file of this name, if there is one. A name that is not UTF-8 names none.
fn open<R: Files>(rt: &R, name: &[u8]) -> Option<R::File> {
    let name = str::from_utf8(name).ok()?;
    File::open(rt, name).ok()
}

// What the file holds: nothing where it is missing or fills the buffer.
fn read_file<'a>(
    rt: &(impl Files + Print),
    name: &[u8],
    buf: &'a mut [u8],
) -> io::Result<&'a [u8]> {
    let Some(mut file) = open(rt, name) else {
        rt.write_all(name)?;
        println!(rt; ": missing")?;
        return Ok(&buf[..0]);
    };
    let len = read_full(&mut file, buf)?;
    if len == buf.len() {
        rt.write_all(name)?;
        println!(rt; ": too long")?;
        return Ok(&buf[..0]);
    }
    Ok(&buf[..len])
}

// So many bytes. That their length is said spares the checker to write them out.
fn zeros<const N: usize>() -> [u8; N]
    ensures { N ≡ length result }
{
    [0; N]
}

// The buffers are on the stack, of which a process commonly has 8 MiB.
fn main(rt: HostRuntime) -> io::Result<()> {
    let mut input = [0u8; NAMES_MOST];
    let len = read_full(&mut rt.stdin(), &mut input)?;
    let names = &input[..len];
    let mut file = zeros::<FILE_MOST>();
    let mut listing = zeros::<LISTING_MOST>();
    let mut catalogue = zeros::<CATALOGUE_MOST>();
    let mut expected = zeros::<EXPECTED_MOST>();
    let mut area = zeros::<AREA_MOST>();
    let mut answer = zeros::<ROOM_MOST>();
    let mut replay = Replay {
        case: Span::default(),
        last: Span::default(),
        listing: Listing::new(&mut listing),
        catalogue: Text::new(&mut catalogue),
        expected: Text::new(&mut expected),
        columns: 0,
        area: &mut area,
        lent: AREA,
        answer: &mut answer,
        room: ROOM,
        calls: 0,
        disagree: 0,
        numbers: [0; 13],
    };
    for name in names.split_inclusive(|b| *b == b'\n') {
        replay.file(&rt, &mut file, name.strip_suffix(b"\n").unwrap_or(name))?;
    }
    replay.print_totals(&rt)
}
