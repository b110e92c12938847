// Replays a fixed list of files and voices, and prints what the library makes of each. The list and the answers that are to come out
// were written by tools/compare, which took the answers from the original Rust module: `compare list crates/replay`. The lines that begin
// with `tie` or `wrap` are its own: where two nibbles lead as near, or a sum leaves a sample's range, the library doesn't do as the original
// does.
#![tactic(auto)]

mod input;
mod read_case;
mod write_case;

use print::Passing;
use std::io;
use std::io::Read;

// A case, by the byte that says what it is; whether there was one. Its line begins with a label where the answer isn't the original's, which
// stands before the case is read.
fn case<R: Read>(rt: &impl Print, input: &mut R) -> io::Result<bool> {
    let kind = input::kind(input);
    match kind {
        3 => print!(rt; "tie ")?,
        4 | 5 => print!(rt; "wrap ")?,
        _ => {}
    }
    match kind {
        1 | 4 => read_case::run(rt, input)?,
        2 | 3 | 5 => write_case::run(rt, input)?,
        _ => return Ok(false),
    }
    Ok(true)
}

fn main(rt: HostRuntime) -> io::Result<()> {
    let out = Passing(&rt);
    let mut input = rt.reader();
    for _ in 0..100000 {
        if !case(&out, &mut input)? {
            break;
        }
    }
    Ok(())
}
