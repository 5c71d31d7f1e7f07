#![tactic(auto)]

ghost use Rattle.crc.specs.Check.{check_of, dividend, number, remainder};
ghost use Rattle.crc.specs.Register.{byte_in, stepped};
ghost use Rattle.std.specs.Prelude.{◌≡◌};

// The check of a frame's bytes: the complement of their remainder.
pub fn check(bytes: &[u8]) -> u16
    ensures { result ≡ check_of bytes.now }
{
    !divide(bytes)
}

// The remainder of the bytes, with a register that starts with ones.
fn divide(bytes: &[u8]) -> u16
    ensures { result ≡ number (remainder (dividend bytes.now)) }
{
    bytes
        .iter()
        .fold(0xffff, |register, byte| take_byte(register, *byte))
}

// A byte is added to the register's front, and its eight bits are divided out.
fn take_byte(register: u16, byte: u8) -> u16
    ensures { result ≡ byte_in register byte }
{
    let mut front = register ^ (u16::from(byte) << 8);
    // eight times: nothing is counted through
    for _ in 0..8u8 {
        front = step(front);
    }
    front
}

// One step of the division: the front bit goes, and where it is a one the divisor goes with it.
fn step(register: u16) -> u16
    ensures { result ≡ stepped register }
{
    let shifted = register << 1;
    if register < 0x8000 {
        shifted
    } else {
        shifted ^ 0x1021
    }
}

#[cfg(test)]
mod tests {
    use super::check;

    #[test]
    fn of_nothing(rt: HostRuntime) {
        assert_eq!(rt; check(b""), 0);
    }

    #[test]
    fn of_one_letter(rt: HostRuntime) {
        assert_eq!(rt; check(b"A"), 0x46ea);
    }

    #[test]
    fn of_the_digits(rt: HostRuntime) {
        assert_eq!(rt; check(b"123456789"), 0xd64e);
    }
}
