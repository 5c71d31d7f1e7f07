ghost use Rattle.std.specs.Prelude.{◌≡◌, ◌≤◌};
ghost use Rattle.std.specs.Option.{ok_or};
ghost use Rattle.script.specs.declared.fault.Fault.TheVariants.{Wrong};
ghost use Rattle.script.specs.Digits.{number_in, number_of, number_to, flag_of, bytes_of};
ghost use Rattle.script.specs.Bytes.{Reads};

use crate::fault::Fault;
use std::alloc::Global;

// The number that digits of a base write, without a sign.
fn in_base(base: u32, digits: &str) -> Option<u32>
    requires some { 2 ≤ base }
    requires known { base ≤ 16 }
    ensures { result ≡ number_in base digits.now }
{
    if digits.starts_with('+') {
        return None;
    }
    u32::from_str_radix(digits, base).ok()
}

// A number of 32 bits, decimal or hexadecimal after `0x`.
fn parsed(word: &str) -> Option<u32>
    ensures { result ≡ number_of word.now }
{
    match word.strip_prefix("0x") {
        Some(digits) => in_base(16, digits),
        None => in_base(10, word),
    }
}

pub fn number(word: &str) -> Result<u32, Fault>
    ensures { result ≡ ok_or (number_of word.now) Wrong }
{
    parsed(word).ok_or(Fault::Wrong)
}

// A number of at most this size.
pub fn number_to(most: u32, word: &str) -> Result<u32, Fault>
    ensures { result ≡ ok_or (number_to most word.now) Wrong }
{
    let n = number(word)?;
    if n > most {
        return Err(Fault::Wrong);
    }
    Ok(n)
}

pub fn byte(word: &str) -> Result<u8, Fault>
    ensures { result ≡ ok_or (number_to 255 word.now) Wrong }
{
    Ok(number_to(255, word)? as u8)
}

pub fn half_word(word: &str) -> Result<u16, Fault>
    ensures { result ≡ ok_or (number_to 65535 word.now) Wrong }
{
    Ok(number_to(65535, word)? as u16)
}

// The largest buffer that a call is handed.
pub const LARGEST: u32 = 4096;

// The size of a buffer.
pub fn size(word: &str) -> Result<usize, Fault>
    ensures { result ≡ ok_or (number_to 4096 word.now) Wrong }
{
    Ok(number_to(LARGEST, word)? as usize)
}

// 0 or 1.
pub fn flag(word: &str) -> Result<bool, Fault>
    ensures { result ≡ ok_or (flag_of word.now) Wrong }
{
    Ok(number_to(1, word)? == 1)
}

// The bytes that a word of hexadecimal digits writes; `-` stands for none.
pub fn bytes(heap: Global, word: &str) -> Result<Vec<u8>, Fault>
    ensures { Reads (bytes_of word.now) result }
{
    match word {
        "" => Err(Fault::Wrong),
        "-" => Ok(Vec::new(heap)),
        digits => Ok(hex::decode(heap, digits)?),
    }
}
