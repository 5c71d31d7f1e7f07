ghost use Rattle.std.specs.Prelude.{⊤};

use crate::console::Console;
use crate::fault::Fault;
use crate::reply::Reply;
use std::alloc::Global;
use std::test::Fail;

// A console that says nothing of what it holds or of its replies: it fits one word.
#[derive(Drop)]
struct Bare;

impl Console for Bare {
    ghost State = { ⊤ };

    ghost state = { λ _. tt };

    fn obey_words(&mut self, _heap: Global, words: &[&str]) -> Result<Reply, Fault> {
        match words {
            ["fits"] => Ok(Reply::Fits(true)),
            _ => Err(Fault::Wrong),
        }
    }
}

fn answers(heap: Global, line: &[u8], answer: &str) -> bool {
    matches!(Bare.answer(heap, line), Ok(Some(own)) if own.as_str() == answer)
}

#[test]
fn bare_console(rt: HostRuntime) {
    assert!(rt; answers(rt.alloc(), b"fits", "yes"));
    assert!(rt; answers(rt.alloc(), b"fits\r", "yes"));
    assert!(rt; answers(rt.alloc(), b"fits it", "error"));
    assert!(rt; matches!(Bare.answer(rt.alloc(), b"# fits"), Ok(None)));
}
