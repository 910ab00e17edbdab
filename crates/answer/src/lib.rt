// The answer's writer. Its length is found first, so that an answer that does not fit is refused before anything is written.
#![tactic(auto)]

ghost use Rattle.std.specs.Prelude.{◌≡◌, ◌+◌, ◌≤◌, length};
ghost use Rattle.type_info.specs.Names.{name_of};
ghost use Rattle.model.specs.Numbers.{print_natural};
ghost use Rattle.model.specs.Fields.{print_field};
ghost use Rattle.model.specs.AnswerText.{most_counted, print_nullable, print_column};
ghost use Rattle.answer.specs.Writing.{patch, Room, Put, Sized};
ghost use Rattle.answer.specs.Text.{column_in, columns_text, head_text, Small, Writes};

use counters::Counters;
use refusal::Refusal;
use type_info::DataType;

// The name of a column's kind, by its byte.
fn kind_name(column: u8) -> &'static str
    ensures { result.now ≡ name_of (column_in column).datatype }
{
    let kind = DataType::try_from(u64::from(column / 4));
    kind.unwrap_or(DataType::Null).name()
}

// Whether a column may be blank, by its byte.
fn nullable_name(column: u8) -> &'static str
    ensures { result.now ≡ print_nullable (column_in column).nullable }
{
    match column % 4 {
        1 => "no",
        2 => "yes",
        _ => "unknown",
    }
}

// How many digits n has.
#[tactic(auto, using(crate::proofs::DigitLaws::digits_sized))]
fn digits(n: u64) -> usize
    requires { n ≤ most_counted }
    ensures { Sized (print_natural n) 10 result }
{
    n.checked_ilog10().unwrap_or(0) as usize + 1
}

// The length of the three lines of the k-th column.
#[tactic(auto, using(crate::proofs::ColumnLaws::column_sized, crate::proofs::ColumnLaws::name_short, crate::proofs::ColumnLaws::nullable_short))]
fn column_len(k: u64, column: u8) -> usize
    requires { k ≤ most_counted }
    ensures { Sized (print_column k (column_in column)) 64 result }
{
    digits(k) + kind_name(column).len() + nullable_name(column).len() + 17
}

// The length of the lines of all columns.
#[tactic(auto, using(crate::proofs::ColumnLaws::columns_longer, crate::proofs::ColumnLaws::columns_empty))]
fn columns_len(columns: &[u8]) -> usize
    requires { length columns.now ≤ 2000 }
    ensures { Sized (columns_text 0 columns.now) 128000 result }
{
    let mut n = 0;
    for (k, &column) in columns.iter().enumerate() {
        n += column_len(k as u64, column);
    }
    n
}

// The length of the first five lines.
fn head_len(width: u64, counts: &Counters) -> usize
    requires { Small width counts.now }
    ensures { Sized (head_text width counts.now) 98 result }
{
    digits(width)
        + digits(counts.charged)
        + digits(counts.loopstops)
        + digits(counts.gasstops)
        + digits(counts.repeats)
        + 48
}

// Writes a text from `at` on. A loop, since `copy_from_slice` comes out as `memmove` here, and the archive for C wants but `memcpy` and `memset`.
#[inline(always)]
fn copy(out: &mut [u8], at: usize, text: &[u8])
    requires { at + length text.now ≤ length out.old }
    ensures { out.new ≡ patch out.old at text.now }
{
    for (i, &byte) in text.iter().enumerate() {
        out[at + i] = byte;
    }
}

// A buffer, and where the next text goes.
#[derive(Drop)]
struct Writer<'a> {
    out: &'a mut [u8],
    at: usize,
}

impl Writer<'_> {
    // Writes a text.
    #[inline(always)]
    fn put(&mut self, text: &str)
        requires { Room self.old text.now }
        ensures { Put self.old self.new text.now }
    {
        copy(self.out, self.at, text.as_bytes());
        self.at += text.len();
    }

    // Writes a number.
    #[inline(always)]
    fn put_number(&mut self, n: u64)
        requires { (n ≤ most_counted) × Room self.old (print_natural n) }
        ensures { Put self.old self.new (print_natural n) }
    {
        let end = self.at + digits(n);
        itoa::write_digits(n, self.out, end);
        self.at = end;
    }

    // Writes a field with a number.
    #[inline(always)]
    fn put_count(&mut self, key: &str, n: u64)
        requires { (n ≤ most_counted) × Room self.old (print_field key.now (print_natural n)) }
        ensures { Put self.old self.new (print_field key.now (print_natural n)) }
    {
        self.put(key);
        self.put_number(n);
        self.put("\n");
    }

    // Writes a field with a name. Not one with `put_count`: a number as a text is copied once more, and that was slower.
    #[inline(always)]
    fn put_word(&mut self, key: &str, name: &str)
        requires { Room self.old (print_field key.now name.now) }
        ensures { Put self.old self.new (print_field key.now name.now) }
    {
        self.put(key);
        self.put(name);
        self.put("\n");
    }

    // Writes the three lines of the k-th column.
    fn put_column(&mut self, k: u64, column: u8)
        requires { (k ≤ most_counted) × Room self.old (print_column k (column_in column)) }
        ensures { Put self.old self.new (print_column k (column_in column)) }
    {
        self.put_count("col=", k);
        self.put_word("type=", kind_name(column));
        self.put_word("null=", nullable_name(column));
    }

    // Writes the lines of all columns.
    fn put_columns(&mut self, columns: &[u8])
        requires { (length columns.now ≤ 2000) × Room self.old (columns_text 0 columns.now) }
        ensures { Put self.old self.new (columns_text 0 columns.now) }
    {
        for (k, &column) in columns.iter().enumerate() {
            self.put_column(k as u64, column);
        }
    }

    // Writes the first five lines.
    fn put_head(&mut self, width: u64, counts: &Counters)
        requires { Small width counts.now × Room self.old (head_text width counts.now) }
        ensures { Put self.old self.new (head_text width counts.now) }
    {
        self.put_count("columns=", width);
        self.put_count("charged=", counts.charged);
        self.put_count("loopstops=", counts.loopstops);
        self.put_count("gasstops=", counts.gasstops);
        self.put_count("repeats=", counts.repeats);
    }
}

// Writes the answer of these columns, or refuses it if it is longer than the buffer.
pub fn write_answer(answer: &mut [u8], columns: &[u8], counts: &Counters) -> Result<usize, Refusal>
    requires { Small (length columns.now) counts.now }
    ensures { Writes columns.now counts.now answer.old answer.new result }
{
    let width = columns.len() as u64;
    let head = head_len(width, counts);
    if answer.len() < head + columns_len(columns) {
        return Err(Refusal::AnswerTooLong);
    }
    let mut writer = Writer { out: answer, at: 0 };
    writer.put_head(width, counts);
    writer.put_columns(columns);
    Ok(writer.at)
}
