// Prints what each result column of listing.txt is, by the tables of catalog.txt, or the refusal.
// Both files are in the folder that the program runs in; one that is missing is empty.
#![tactic(auto)]

ghost use Rattle.std.specs.Prelude.{◌≤◌, length, IfOk, IfSome};

use reading::read_full;
use refusal::Refusal;
use std::fs::File;
use std::io;
use std::io::Read;
use std::rt::Files;

// Whether there is a byte left to read.
fn has_more<R: Read>(reader: &mut R) -> io::Result<bool> {
    let mut byte = [0u8; 1];
    Ok(read_full(reader, &mut byte)? > 0)
}

// What a file holds, or none if it is longer than the buffer.
fn read_file<'a>(rt: &impl Files, name: &str, buf: &'a mut [u8]) -> io::Result<Option<&'a [u8]>>
    ensures { IfOk result (λ found. IfSome found (λ bytes. length bytes.now ≤ length buf.old)) }
{
    let Ok(mut file) = File::open(rt, name) else {
        return Ok(Some(&buf[..0]));
    };
    let len = read_full(&mut file, buf)?;
    if has_more(&mut file)? {
        return Ok(None);
    }
    Ok(Some(&buf[..len]))
}

fn print_refusal(rt: &impl Print, refusal: Refusal) -> io::Result<()> {
    println!(rt; "refused={}", refusal.number())
}

fn print_kinds(rt: &impl Print, listing: &[u8], catalogue: &[u8]) -> io::Result<()> {
    let mut area = [0u8; 65536];
    let mut answer = [0u8; 65536];
    match column_kinds::describe_columns(listing, catalogue, &mut area, &mut answer) {
        Ok(length) => rt.write_all(&answer[..length]),
        Err(refusal) => print_refusal(rt, refusal),
    }
}

fn main(rt: HostRuntime) -> io::Result<()> {
    let mut listing = [0u8; 65536];
    let rows = read_file(&rt, "listing.txt", &mut listing)?;
    let mut catalogue = [0u8; 32768];
    let records = read_file(&rt, "catalog.txt", &mut catalogue)?;
    match (rows, records) {
        (Some(rows), Some(records)) => print_kinds(&rt, rows, records),
        _ => print_refusal(&rt, Refusal::TooManyLines),
    }
}
