// The bench program: frames on standard input, an answer for each tick and restart on standard output.
#![tactic(auto)]

use std::io;

fn main(rt: HostRuntime) -> io::Result<()> {
    bench_lib::between(&mut rt.stdin(), &mut rt.stdout())
}
