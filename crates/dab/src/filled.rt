ghost use Rattle.std.specs.Prelude.{◌≤◌, length};

// Some bytes, at most so many.
#[derive(Clone, Copy)]
pub(crate) struct Filled<'a, const MOST: usize> {
    pub(crate) bytes: &'a [u8],
    ghost some: { 1 ≤ length bytes.now },
    ghost short: { length bytes.now ≤ MOST },
}
