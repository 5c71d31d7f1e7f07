ghost use Rattle.std.specs.Prelude.{◌≡◌, IfOk};
ghost use Rattle.bench.specs.Held.{fresh};

use std::alloc::{AllocError, Global};

// What a buffer is filled with before a call.
const FILLING: u8 = 0xEE;

// A buffer as calls are handed it.
pub fn buffer(heap: Global, size: usize) -> Result<Vec<u8>, AllocError>
    ensures { IfOk result (λ v. v.items ≡ fresh size) }
{
    vec![in heap; FILLING; size]
}
