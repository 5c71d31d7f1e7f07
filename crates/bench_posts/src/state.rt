ghost use Rattle.std.specs.Prelude.{◌≡◌};
ghost use Rattle.bench_posts.specs.State.{bench_of, new_bench, Obeys, Replies};

use crate::command::Command;
use crate::post::Post;
use bench::carriers::Named;
use dab::dab::Dab;
use fm::fm::Fm;
use script::console::Console;
use script::fault::Fault;
use script::reply::Reply;
use std::alloc::Global;

// The console's state: the bench with the label, and a post for each carrier.
#[derive(Drop)]
pub struct Bench {
    bench: bench::state::Bench,
    fm: Post<Fm>,
    dab: Post<Dab>,
}

impl Bench {
    pub fn new() -> Bench
        ensures { bench_of result ≡ new_bench }
    {
        Bench {
            bench: bench::state::Bench::new(),
            fm: Post::new(),
            dab: Post::new(),
        }
    }

    // Carries out a command. A fault changes nothing.
    pub fn obey(&mut self, heap: Global, command: Command) -> Result<Reply, Fault>
        ensures { Obeys (bench_of self.old) command result (bench_of self.new) }
    {
        let label = &self.bench.label;
        match command {
            Command::Label(command) => self.bench.obey(heap, command),
            // two posts of two types
            Command::At(Named::Fm, order) => self.fm.obey(heap, label, &order),
            Command::At(Named::Dab, order) => self.dab.obey(heap, label, &order),
        }
    }
}

impl Console for Bench {
    ghost use Rattle.bench_posts.specs.State.{BenchState};

    ghost State = { BenchState };

    ghost state = { bench_of };

    ghost replies = { λ b r after. Replies (bench_of b) r (bench_of after) };

    // (As in the bench below, over the commands of this one.)
    fn obey_words(&mut self, heap: Global, words: &[&str]) -> Result<Reply, Fault> {
        let command = Command::parse(heap, words)?;
        self.obey(heap, command)
    }
}
