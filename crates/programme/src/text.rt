// The label that an entry is sent as.
ghost use Rattle.std.specs.Prelude.{◌≡◌, ◌<◌, [], ◌∷◌, IfOk, if◌then◌else◌, Ok, nat_lt};
ghost use Rattle.programme.specs.Lines.{said_by};
ghost use Rattle.programme.specs.Labels.{depth_digits, reading_text, song_text, Composes, Marks, Sends, MarksParts, reading_label, song_label};

use crate::composed::Composed;
use crate::entry::Entry;
use crate::fault::Fault;
use label::tag::Tag;
use std::alloc::{AllocError, Global};

// The classes of the parts that tags mark.
const TITLE: u8 = 1;

const ARTIST: u8 = 4;

const DEPTH: u8 = 56;

fn song_text(heap: Global, title: &[u8], artist: &[u8]) -> Result<Vec<u8>, AllocError>
    ensures { IfOk result (λ v. v.items ≡ song_text title.now artist.now) }
{
    [
        b"You are listening to \"".as_slice(),
        title,
        b"\" by ",
        artist,
    ]
    .concat(heap)
}

#[tactic(auto, using(crate::proofs::Marked::song_marks))]
fn song(heap: Global, title: &[u8], artist: &[u8]) -> Result<Composed, Fault>
    ensures label { Composes result (song_label title.now artist.now) }
    ensures marks { Marks result (title.now ∷ (artist.now ∷ [])) }
{
    if title.is_empty() || artist.is_empty() {
        return Err(Fault::NoSong);
    }
    // The title stands behind 22 bytes and the artist behind 5 more, and a marker is a byte.
    if title.len() > 228 || artist.len() > 256 {
        return Err(Fault::TooLong);
    }
    let named = Tag {
        class: TITLE,
        start: 22,
        extent: (title.len() - 1) as u8,
    };
    let by = Tag {
        class: ARTIST,
        start: (title.len() + 27) as u8,
        extent: (artist.len() - 1) as u8,
    };
    let tags = Vec::from_slice(heap, &[named, by])?;
    let text = song_text(heap, title, artist)?;
    Ok(Composed { text, tags })
}

fn reading_text(heap: Global, tenths: u16) -> Result<Vec<u8>, AllocError>
    requires { tenths < 1000 }
    ensures { IfOk result (λ v. v.items ≡ reading_text tenths) }
{
    let metres = tenths / 10;
    let tenth = tenths % 10;
    let text = format!(in heap; "Sill {metres}.{tenth} m")?;
    Ok(text.into_bytes())
}

fn reading(heap: Global, tenths: u16) -> Result<Composed, Fault>
    ensures label { Composes result (reading_label tenths) }
    ensures marks { Marks result (depth_digits tenths ∷ []) }
{
    if tenths >= 1000 {
        return Err(Fault::TooDeep);
    }
    let depth = Tag {
        class: DEPTH,
        start: 5,
        extent: if tenths < 100 { 2 } else { 3 },
    };
    let tags = Vec::from_slice(heap, &[depth])?;
    let text = reading_text(heap, tenths)?;
    Ok(Composed { text, tags })
}

fn announcement(heap: Global, said: &[u8]) -> Result<Composed, Fault>
    ensures label { Composes result (Ok (record { text = said.now; tags = [] })) }
    ensures marks { Marks result [] }
{
    let text = Vec::from_slice(heap, said)?;
    Ok(Composed {
        text,
        tags: Vec::new(heap),
    })
}

// The label that an entry is sent as, where there is anything to send: an Option outside, since nothing to send is no fault.
pub fn compose(heap: Global, entry: Entry) -> Option<Result<Composed, Fault>>
    ensures label { Sends (said_by entry.entry) result }
    ensures marks { MarksParts (said_by entry.entry) result }
{
    match entry {
        Entry::Nothing => None,
        Entry::Reading { time: _, tenths } => Some(reading(heap, tenths)),
        Entry::Song { title, artist } => Some(song(heap, title, artist)),
        Entry::Announcement(text) => Some(announcement(heap, text)),
    }
}
