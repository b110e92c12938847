// Runs worked examples of the format's specification and prints what they give.
#![tactic(auto)]

mod codec;
mod crossings;
mod headers;
mod sheets;
mod texts;
mod waves;

use print::Passing;
use std::io;

fn main(rt: HostRuntime) -> io::Result<()> {
    let out = Passing(&rt);
    codec::run(&out)?;
    headers::run(&out)?;
    sheets::run(&out)?;
    texts::run(&out)?;
    waves::run(&out)?;
    crossings::run(&out)
}
