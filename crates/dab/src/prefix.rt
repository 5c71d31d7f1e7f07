ghost use Rattle.std.specs.Prelude.{◌≡◌, ◌+◌, ◌<◌, ◌≤◌, ◌&&◌, length, IfOk};
ghost use Rattle.dab.specs.Frames.{text_first, text_second, command_first, command_second};
ghost use Rattle.dab.specs.Taking.{toggle_bit, first_bit, last_bit, command_bit, low_four, high_four, segment_number};

use crate::load::Load;
use label::refusal::Refusal;

// The bits of the first prefix byte, and the toggle of a command's second one.
const TOGGLE: u8 = 0x80;

const FIRST: u8 = 0x40;

const LAST: u8 = 0x20;

const COMMAND: u8 = 0x10;

// The command of DL Plus.
pub(crate) const DL_PLUS: u8 = 2;

// The two prefix bytes of a frame.
#[derive(Clone, Copy)]
pub(crate) struct Prefix {
    pub(crate) first: u8,
    pub(crate) second: u8,
}

fn toggle_bit(byte: u8) -> bool
    ensures { result ≡ toggle_bit byte }
{
    byte / TOGGLE == 1
}

fn low_four(byte: u8) -> u8
    ensures { result ≡ low_four byte }
{
    byte % 16
}

impl Prefix {
    // The prefix of a text segment, by its number, the last one's and its data.
    pub(crate) fn of_text(toggle: bool, number: usize, last: usize, load: &Load<'_>) -> Prefix
        requires { number ≤ 7 }
        ensures first { result.first ≡ text_first toggle number last (length load.now.bytes.now) }
        ensures second { result.second ≡ text_second number }
    {
        let first = (number == 0) as u8;
        let last = (number == last) as u8;
        Prefix {
            first: toggle as u8 * TOGGLE + first * FIRST + last * LAST + load.len_field(),
            second: number as u8 * 16,
        }
    }

    // The prefix of a command, by its data.
    pub(crate) fn of_command(toggle: bool, load: &Load<'_>) -> Prefix
        ensures first { result.first ≡ command_first toggle }
        ensures second { result.second ≡ command_second toggle (length load.now.bytes.now) }
    {
        Prefix {
            first: toggle as u8 * TOGGLE + FIRST + LAST + COMMAND + DL_PLUS,
            second: toggle as u8 * TOGGLE + load.len_field(),
        }
    }

    pub(crate) fn is_command(self) -> bool
        ensures { result ≡ command_bit self.first }
    {
        self.first / COMMAND % 2 == 1
    }

    fn is_first(self) -> bool
        ensures { result ≡ first_bit self.first }
    {
        self.first / FIRST % 2 == 1
    }

    pub(crate) fn is_last(self) -> bool
        ensures { result ≡ last_bit self.first }
    {
        self.first / LAST % 2 == 1
    }

    // Both first and last.
    pub(crate) fn is_whole(self) -> bool
        ensures { result ≡ (first_bit self.first && last_bit self.first) }
    {
        self.is_first() && self.is_last()
    }

    // Which command it is.
    pub(crate) fn command(self) -> u8
        ensures { result ≡ low_four self.first }
    {
        low_four(self.first)
    }

    // The toggle of a text segment.
    pub(crate) fn text_toggle(self) -> bool
        ensures { result ≡ toggle_bit self.first }
    {
        toggle_bit(self.first)
    }

    // How many data bytes a text segment says that it has.
    pub(crate) fn text_len(self) -> usize
        ensures { result ≡ low_four self.first + 1 }
    {
        low_four(self.first) as usize + 1
    }

    // The toggle of the text that a command's tags are for.
    pub(crate) fn command_toggle(self) -> bool
        ensures { result ≡ toggle_bit self.second }
    {
        toggle_bit(self.second)
    }

    // How many data bytes a command says that it has.
    pub(crate) fn command_len(self) -> usize
        ensures { result ≡ low_four self.second + 1 }
    {
        low_four(self.second) as usize + 1
    }

    // The charset of a first text segment.
    fn charset(self) -> u8
        ensures { result ≡ high_four self.second }
    {
        self.second / 16
    }

    // The number of a text segment.
    pub(crate) fn segment_number(self) -> Result<usize, Refusal>
        ensures value { result ≡ segment_number self.first self.second }
        ensures small { IfOk result (λ n. n < 8) }
    {
        if self.is_first() {
            if self.charset() == 0 {
                Ok(0)
            } else {
                Err(Refusal::OtherCharset)
            }
        } else {
            let number = self.second / 16 % 8;
            if number == 0 {
                Err(Refusal::LaterSegmentZero)
            } else {
                Ok(number as usize)
            }
        }
    }
}
