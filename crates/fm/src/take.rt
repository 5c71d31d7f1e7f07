ghost use Rattle.std.specs.Prelude.{◌≡◌, None};
ghost use Rattle.carrier.specs.Meaning.{answered, reply, next};
ghost use Rattle.taking.specs.Taking.{on_text, on_tags};
ghost use Rattle.fm.specs.Taking.{learns, lifted, read_bits, text_piece, text_toggle, unpacked};
ghost use Rattle.fm.specs.Text.{fm_pieces};
ghost use Rattle.fm.specs.Views.{fm_view};

use crate::blocks::Blocks;
use crate::fm::Fm;
use carrier::answer::Answer;
use label::refusal::Refusal;

impl Fm {
    // Takes a text segment.
    pub(crate) fn take_text(&mut self, blocks: &Blocks) -> Answer
        ensures { lifted (fm_view self.old) (on_text fm_pieces (fm_view self.old).core (text_toggle blocks.now.0) (text_piece blocks.now.0)) ≡ answered result (fm_view self.new) }
    {
        self.taking.on_text(blocks.toggle(), &blocks.piece())
    }

    // Learns or forgets the tag group.
    pub(crate) fn learn(&mut self, blocks: &Blocks) -> Result<Answer, Refusal>
        ensures reply { result ≡ reply (learns (fm_view self.old) blocks.now.0) }
        ensures next { fm_view self.new ≡ next (fm_view self.old) (learns (fm_view self.old) blocks.now.0) }
    {
        self.group = if blocks.is_ert() {
            None
        } else {
            Some(blocks.announced()?)
        };
        Ok(Answer::Kept)
    }

    // Takes the learnt tag group.
    pub(crate) fn take_tags(&mut self, blocks: &Blocks) -> Result<Answer, Refusal>
        ensures reply { result ≡ reply (lifted (fm_view self.old) (on_tags fm_pieces (fm_view self.old).core None (unpacked (read_bits blocks.now.0)))) }
        ensures next { fm_view self.new ≡ next (fm_view self.old) (lifted (fm_view self.old) (on_tags fm_pieces (fm_view self.old).core None (unpacked (read_bits blocks.now.0)))) }
    {
        self.taking.on_tags(None, &blocks.tags())
    }
}
