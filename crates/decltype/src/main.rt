// Prints the kind and the affinity of the declared type that its argument is, or the refusal.
// An argument that is missing, or too long for the buffer, is refused as an empty one is.
#![tactic(auto)]

use std::env::Env;
use std::io;

fn main(rt: HostRuntime) -> io::Result<()> {
    let mut text = [0u8; 4096];
    let len = rt.arg(1, &mut text).unwrap_or(0);
    match type_info::declared_type(&text[..len]) {
        Ok(declared) => println!(rt; "type={}\naffinity={}", declared.kind, declared.affinity),
        Err(refusal) => println!(rt; "refused={}", refusal.number()),
    }
}
