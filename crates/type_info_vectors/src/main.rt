// Replays vectors on declared types and UTF-8: a line of the input is `t ` and a declared type, or `u ` and bytes in hexadecimal.
// The input and what must come out are made by tests/leaf_vectors.py.
#![tactic(auto)]

ghost use Rattle.std.specs.Prelude.{◌<◌};

use reading::read_full;
use std::io;

fn show_type(rt: &impl Print, text: &[u8]) -> io::Result<()> {
    match type_info::declared_type(text) {
        Ok(declared) => println!(rt; "{} {}", declared.kind, declared.affinity),
        Err(refusal) => println!(rt; "refused={}", refusal.number()),
    }
}

// The value of a hexadecimal digit; of any other byte a number below 16. A crate of it for both programs that replay would be longer.
fn digit(byte: u8) -> u8
    ensures { result < 16 }
{
    if byte < b'a' {
        return byte % 16;
    }
    (byte - b'a' + 10) % 16
}

// As many bytes as the buffer holds; pairs beyond are left out.
fn show_utf8(rt: &impl Print, digits: &[u8]) -> io::Result<()> {
    let mut bytes = [0u8; 64];
    let len = (digits.len() / 2).min(bytes.len());
    for (byte, pair) in bytes.iter_mut().zip(digits.chunks_exact(2)) {
        if let [high, low] = pair {
            *byte = digit(*high) * 16 + digit(*low);
        }
    }
    println!(rt;
        "{}",
        if type_info::utf8::is_utf8(&bytes[..len]) {
            "yes"
        } else {
            "no"
        }
    )
}

fn show(rt: &impl Print, line: &[u8]) -> io::Result<()> {
    rt.write_all(line)?;
    rt.write_all(b": ")?;
    match line {
        [b't', _, text @ ..] => show_type(rt, text),
        [_, _, digits @ ..] => show_utf8(rt, digits),
        _ => Ok(()),
    }
}

fn main(rt: HostRuntime) -> io::Result<()> {
    let mut input = [0u8; 65536];
    let len = read_full(&mut rt.stdin(), &mut input)?;
    for line in input[..len].split(|b| *b == b'\n') {
        if line.len() >= 2 {
            show(&rt, line)?;
        }
    }
    Ok(())
}
