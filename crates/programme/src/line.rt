// Reads the programme, one line at a time.
ghost use Rattle.std.specs.Prelude.{◌≡◌, ◌+◌, take, drop};
ghost use Rattle.programme.specs.Lines.{heard, separator_at, reading_of, gauge_of, song_of, announcement_of, spoken_of, entry_of, line_of};

use crate::depth::read_depth;
use crate::entry::Entry;
use crate::fault::Fault;
use crate::rows::{
    field_in, is_blank, split_outside_quotes, split_slash, split_while, trim, without_return,
};
use crate::time::is_time;

// The fields of the time and of the metres, parted by the first semicolon outside quotes, or else by the first comma.
fn split_fields(s: &[u8]) -> (&[u8], &[u8])
    ensures time { result.0.now ≡ take (separator_at s.now) s.now }
    ensures metres { result.1.now ≡ drop (separator_at s.now + 1) s.now }
{
    if let Some(fields) = split_outside_quotes(s, b';') {
        return fields;
    }
    split_outside_quotes(s, b',').unwrap_or((s, &[]))
}

fn reading<'a>(time: &'a [u8], metres: &[u8]) -> Result<Entry<'a>, Fault>
    ensures { heard result ≡ reading_of time.now metres.now }
{
    if !is_time(time) {
        return Err(Fault::NoTime);
    }
    let tenths = read_depth(metres)?;
    Ok(Entry::Reading { time, tenths })
}

fn gauge(s: &[u8]) -> Result<Entry<'_>, Fault>
    ensures { heard result ≡ gauge_of s.now }
{
    let (time, metres) = split_fields(s);
    reading(field_in(time), field_in(metres))
}

fn song(s: &[u8]) -> Result<Entry<'_>, Fault>
    ensures { heard result ≡ song_of s.now }
{
    let (title, artist) = split_slash(s).ok_or(Fault::NoSong)?;
    let title = trim(title);
    let artist = trim(artist);
    if title.is_empty() || artist.is_empty() {
        return Err(Fault::NoSong);
    }
    Ok(Entry::Song { title, artist })
}

fn announcement(s: &[u8]) -> Result<Entry<'_>, Fault>
    ensures { heard result ≡ announcement_of s.now }
{
    if s.is_empty() {
        return Err(Fault::NothingToSay);
    }
    Ok(Entry::Announcement(s))
}

// A keyword, and what stands behind it.
fn spoken(s: &[u8]) -> Result<Entry<'_>, Fault>
    ensures { heard result ≡ spoken_of s.now }
{
    let (word, behind) = split_while(s, |b| b != b' ');
    let behind = trim(behind);
    match word {
        b"song" => song(behind),
        b"say" => announcement(behind),
        _ => Err(Fault::Unknown),
    }
}

#[tactic(auto, unfolding(crate::specs::Lines::entry_of))]
fn entry_in(s: &[u8]) -> Result<Entry<'_>, Fault>
    ensures { heard result ≡ entry_of s.now }
{
    if is_blank(s) {
        return Ok(Entry::Nothing);
    }
    match s {
        [b'#', ..] => Ok(Entry::Nothing),
        [b'"' | b'0'..=b'9', ..] => gauge(s),
        _ => spoken(s),
    }
}

// What one line says, given without its line end, or why it says nothing.
pub fn read_line(line: &[u8]) -> Result<Entry<'_>, Fault>
    ensures { heard result ≡ line_of line.now }
{
    entry_in(without_return(line))
}
