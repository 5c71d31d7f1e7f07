// The console with stations and displays: each line of standard input is answered by a line on standard output. (It differs
// from `console` in its bench alone.)
#![tactic(auto)]

use bench_posts::state::Bench;
use script::console::serve;
use std::io;

fn main(rt: HostRuntime) -> io::Result<()> {
    serve(&mut Bench::new(), rt.alloc(), rt.stdin(), &mut rt.stdout())
}
