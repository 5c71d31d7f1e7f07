ghost use Rattle.std.specs.Prelude.{◌≡◌, ◌*◌, ◌≤◌, true, ◌++◌, length, drop};
ghost use Rattle.label.specs.Drafts.{matches};
ghost use Rattle.carrier.specs.Aired.{outline, frame_of};
ghost use Rattle.station.specs.Sending.{places};

use carrier::airing::Airing;
use carrier::carrier::Carrier;
use carrier::writing::PLACE;

// Writes the first n frames, each into its place, a part of the buffer that is lent on.
pub(crate) fn write_all<C: Carrier>(airing: &Airing<'_>, n: usize, buf: &mut [u8])
    requires fit { C.meaning.writing.fits (outline airing.now) ≡ true }
    requires same { matches (outline airing.now) airing.now.text.now ≡ true }
    requires all { n ≡ C.meaning.writing.count (outline airing.now) }
    requires room { 21 * n ≤ length buf.old }
    ensures { buf.new ≡ places (frame_of C.meaning.writing airing.now) n ++ drop (21 * n) buf.old }
{
    // By index: of what is written through chunks_exact_mut a proof knows the length alone.
    for number in 0..n {
        C::write(airing, number, &mut buf[PLACE * number..]).unwrap();
    }
}
