// The time of a gauge's reading.
ghost use Rattle.std.specs.Prelude.{◌≡◌};
ghost use Rattle.programme.specs.Times.{is_hour, is_sixtieth, is_past_hour, is_clock, dated_from, is_dated, is_time};

// Two digits below 24.
fn is_hour(tens: u8, units: u8) -> bool
    ensures { result ≡ is_hour tens units }
{
    tens.is_ascii_digit() && units.is_ascii_digit() && (tens < b'2' || tens == b'2' && units < b'4')
}

// Two digits below 60.
fn is_sixtieth(tens: u8, units: u8) -> bool
    ensures { result ≡ is_sixtieth tens units }
{
    tens.is_ascii_digit() && units.is_ascii_digit() && tens < b'6'
}

// Minutes, and seconds if any.
fn is_past_hour(s: &[u8]) -> bool
    ensures { result ≡ is_past_hour s.now }
{
    match s {
        [tens, units] => is_sixtieth(*tens, *units),
        [tens, units, b':', second_tens, second_units] => {
            is_sixtieth(*tens, *units) && is_sixtieth(*second_tens, *second_units)
        }
        _ => false,
    }
}

fn is_clock(s: &[u8]) -> bool
    ensures { result ≡ is_clock s.now }
{
    match s {
        [hour, b':', past @ ..] => hour.is_ascii_digit() && is_past_hour(past),
        [tens, units, b':', past @ ..] => is_hour(*tens, *units) && is_past_hour(past),
        _ => false,
    }
}

// A clock's time behind the rest of a date word.
fn dated_from(s: &[u8]) -> bool
    ensures { result ≡ dated_from s.now }
{
    let mut rest = s;
    while let [b, behind @ ..] = rest {
        match b {
            b' ' => return is_clock(behind),
            b'T' if is_clock(behind) => return true,
            _ => rest = behind,
        }
    }
    false
}

// A date word, and a clock's time behind it.
fn is_dated(s: &[u8]) -> bool
    ensures { result ≡ is_dated s.now }
{
    match s {
        [] | [b' ', ..] => false,
        [_, behind @ ..] => dated_from(behind),
    }
}

pub(crate) fn is_time(s: &[u8]) -> bool
    ensures { result ≡ is_time s.now }
{
    is_clock(s) || is_dated(s)
}
