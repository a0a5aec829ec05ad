// The listing program: the files knit.prg and swap.log, as the rewriter answers on them.
#![tactic(auto)]

use std::io;

fn main(rt: HostRuntime) -> io::Result<()> {
    let mut text = [0u8; listing_text::LONGEST];
    let n = listing_text::list_files(&rt, b"knit.prg", b"swap.log", &mut text);
    rt.write_all(&text[..n])
}
