// The listing's text: its rows, read, judged and laid down in the area, and how many there are.
#![tactic(auto)]

ghost use Rattle.std.specs.Prelude.{◌≡◌, ◌+◌, ◌≤◌, length, option_copied};
ghost use Rattle.std.specs.List.{list_all};
ghost use Rattle.std.specs.Char.{is_ascii_alphanumeric};
ghost use Rattle.type_info.specs.Ascii.{ascii};
ghost use Rattle.model.specs.Fields.{take_field};
ghost use Rattle.model.specs.Numbers.{read_index, read_signed, read_hex, hex_value};
ghost use Rattle.model.specs.ListingText.{is_operation, read_operation, read_p4};
ghost use Rattle.text.specs.Reads.{Reads};
ghost use Rattle.listing.specs.Fields.{SignedAs, ReadsOperand};
ghost use Rattle.listing.specs.ListingRows.{ReadsRow, Room, PutWhere, Loaded};

use refusal::Refusal;
use text::Reader;

// The most rows that a listing may have.
const MOST: usize = 2048;

// The row's address, which must be k.
fn address(reader: &mut Reader, k: usize) -> Option<()>
    ensures { Reads (take_field (ascii "addr=") (read_index k)) reader.old.rest.now reader.new.rest.now result }
{
    let n = text::natural(reader.value(b"addr=")?, k as u64)?;
    (n == k as u64).then_some(())
}

// Whether t has only ASCII letters and digits.
fn is_alphanumeric(t: &[u8]) -> bool
    ensures { result ≡ list_all is_ascii_alphanumeric t.now }
{
    t.iter().all(|b| b.is_ascii_alphanumeric())
}

// Whether t can be an operation's name.
fn is_operation(t: &[u8]) -> bool
    ensures { result ≡ is_operation t.now }
{
    if t.is_empty() {
        return false;
    }
    t.len() <= 32 && is_alphanumeric(t)
}

// The name of the row's operation.
fn operation<'a>(reader: &mut Reader<'a>) -> Option<&'a [u8]>
    ensures { Reads (take_field (ascii "op=") read_operation) reader.old.rest.now reader.new.rest.now (option_copied result) }
{
    reader.value(b"op=").filter(|t| is_operation(t))
}

// The signed number that t is, as a word.
fn signed(t: &[u8]) -> Option<u64>
    ensures { SignedAs t.now result }
{
    match t {
        [b'-', digits @ ..] => match text::natural(digits, 2147483648)? {
            0 => None,
            n => Some(intmap::ZERO - n),
        },
        _ => Some(intmap::ZERO + text::natural(t, 2147483647)?),
    }
}

// The operand behind the key, as a word.
fn operand(reader: &mut Reader, key: &[u8]) -> Option<u64>
    ensures { ReadsOperand (take_field key.now read_signed) reader.old.rest.now reader.new.rest.now result }
{
    signed(reader.value(key)?)
}

// The value of a hexadecimal digit in lower case: `to_digit` takes capitals too.
fn hex_value(b: u8) -> Option<u8>
    ensures { result ≡ hex_value b }
{
    match b {
        b'0'..=b'9' => Some(b - b'0'),
        b'a'..=b'f' => Some(b - b'a' + 10),
        _ => None,
    }
}

// The bytes of a hexadecimal text, which are put into the first of `bytes`.
fn decode<'b>(t: &[u8], bytes: &'b mut [u8]) -> Option<&'b [u8]>
    requires { length t.now ≤ length bytes.old + length bytes.old }
    ensures { option_copied result ≡ read_hex t.now }
{
    let (pairs, odd) = t.as_chunks::<2>();
    for (n, [high, low]) in pairs.iter().enumerate() {
        bytes[n] = hex_value(*high)? * 16 + hex_value(*low)?;
    }
    odd.is_empty().then_some(&bytes[..pairs.len()])
}

// The row's P4, decoded.
fn p4<'b>(reader: &mut Reader, bytes: &'b mut [u8; 255]) -> Option<&'b [u8]>
    ensures { Reads (take_field (ascii "p4=") read_p4) reader.old.rest.now reader.new.rest.now (option_copied result) }
{
    let t = reader.value(b"p4=")?;
    if 2 * bytes.len() < t.len() {
        return None;
    }
    decode(t, bytes)
}

// The row that stands first, judged. Its address must be k.
fn read_row(reader: &mut Reader, k: usize) -> Option<rows::Row>
    ensures { ReadsRow k reader.old.rest.now reader.new.rest.now result }
{
    address(reader, k)?;
    let name = operation(reader)?;
    let p1 = operand(reader, b"p1=")?;
    let p2 = operand(reader, b"p2=")?;
    let p3 = operand(reader, b"p3=")?;
    // Fixed memory: there is no heap.
    let mut bytes = [0u8; 255];
    let p4 = p4(reader, &mut bytes)?;
    Some(rows::judge(name, p1, p2, p3, p4))
}

// Lays row k down, where there is room for it.
fn put_where(area: &mut [u8], from: usize, room: usize, k: usize, row: rows::Row)
    requires { Room area.old from room }
    ensures { PutWhere area.old area.new from room k row }
{
    if k < room {
        rows::put_row(area, from, k, row);
    }
}

// Reads the listing, and lays its rows down in the `room` cells from `from` on, as many as there is room for. It gives how many rows there
// are. A text that is ill-formed anywhere is refused as such, however many rows it has.
pub fn read_listing(
    listing: &[u8],
    area: &mut [u8],
    from: usize,
    room: usize,
) -> Result<usize, Refusal>
    requires { Room area.old from room }
    ensures { Loaded listing.now area.old area.new from room result }
{
    let mut reader = Reader { rest: listing };
    let mut k: usize = 0;
    // A `while`, and not a `for` over an iterator as `catalogue::Records`: the rows are read here alone, so that it would only be longer.
    while !reader.rest.is_empty() {
        let row = read_row(&mut reader, k).ok_or(Refusal::IllFormedListing)?;
        put_where(area, from, room, k, row);
        k += 1;
    }
    if MOST < k {
        return Err(Refusal::TooManyLines);
    }
    Ok(k)
}
