ghost use Rattle.std.specs.Prelude.{◌≡◌, None};
ghost use Rattle.std.specs.Option.{option_map};
ghost use Rattle.carrier.specs.Aired.{told_label};
ghost use Rattle.carrier.specs.Meaning.{answered, reply, next};
ghost use Rattle.taking.specs.Taking.{new_taken, stands, begun, settled, held_again, put_in, on_text, on_tags, forgotten, waiting_for, tags_met};
ghost use Rattle.taking.specs.Views.{view, tags_of};

use crate::arrived::Arrived;
use crate::look::Look;
use crate::pieces::Pieces;
use crate::taken::Taking;
use carrier::answer::Answer;
use carrier::told::Told;
use label::refusal::Refusal;

impl<P: Pieces> Taking<P> {
    pub fn new() -> Self
        ensures { view P.held result ≡ new_taken P.pieces }
    {
        Taking {
            pieces: P::new(),
            standing: None,
            waiting: None,
            told: None,
        }
    }

    // The standing message toggle, unknown when new.
    pub fn standing(&self) -> Option<bool>
        ensures { result ≡ (view P.held self.now).standing }
    {
        self.standing
    }

    // The complete label.
    pub fn told(&self) -> Option<&Told>
        ensures { option_map (λ t. told_label t.now) result ≡ (view P.held self.now).told }
    {
        self.told.as_ref()
    }

    // The toggle is the standing one.
    fn stands(&self, toggle: bool) -> bool
        ensures { result ≡ stands (view P.held self.now).standing toggle }
    {
        self.standing == Some(toggle)
    }

    // Forgets text, tags and completeness; the toggle stands.
    fn forget(&mut self, toggle: bool)
        ensures { view P.held self.new ≡ forgotten P.pieces toggle }
    {
        self.pieces.clear();
        self.standing = Some(toggle);
        self.waiting = None; // the text that they waited for is gone
        self.told = None;
    }

    // Forgets all, and holds the piece as the first of a new text.
    fn begin(&mut self, toggle: bool, piece: &P::Piece)
        ensures { view P.held self.new ≡ begun P.pieces toggle (P.meant piece.now) }
    {
        self.forget(toggle);
        self.pieces.put(piece);
    }

    // A piece of a text arrives.
    #[tactic(auto, unfolding(crate::specs::Taking::on_text))]
    pub fn on_text(&mut self, toggle: bool, piece: &P::Piece) -> Answer
        ensures { on_text P.pieces (view P.held self.old) toggle (P.meant piece.now) ≡ answered result (view P.held self.new) }
    {
        if !self.stands(toggle) {
            self.begin(toggle, piece);
            return Answer::Kept;
        }
        match self.pieces.look(piece) {
            Look::Behind => Answer::PassedOver,
            Look::Unlike => {
                self.begin(toggle, piece);
                Answer::Kept
            }
            Look::Equal => self.held_again(),
            Look::Fresh => self.put_in(piece),
        }
    }

    fn held_again(&self) -> Answer
        ensures { held_again (view P.held self.now) (view P.held self.now).told ≡ answered result (view P.held self.now) }
    {
        match self.told {
            None => Answer::Kept,
            Some(_) => Answer::Again,
        }
    }

    fn put_in(&mut self, piece: &P::Piece) -> Answer
        ensures { put_in P.pieces (view P.held self.old) (P.meant piece.now) (view P.held self.old).told ≡ answered result (view P.held self.new) }
    {
        if self.told.is_some() {
            return Answer::Again;
        }
        self.pieces.put(piece);
        self.settle()
    }

    // A piece was put in while no label is complete.
    fn settle(&mut self) -> Answer
        requires { (view P.held self.old).told ≡ None }
        ensures { settled (view P.held self.old) (P.pieces.text (view P.held self.old).held) (view P.held self.old).waiting ≡ answered result (view P.held self.new) }
    {
        let Some(arrived) = self.waiting else {
            return Answer::Kept;
        };
        let Some(text) = self.pieces.text() else {
            return Answer::Kept;
        };
        self.waiting = None; // told, or unlawful for the text
        if !arrived.are_lawful(text.len()) {
            return Answer::Dropped;
        }
        self.told = Some(arrived.tell(text));
        Answer::Complete
    }

    // Forgets all, and the tags wait.
    fn begin_tags(&mut self, toggle: bool, arrived: &Arrived)
        ensures { view P.held self.new ≡ waiting_for (forgotten P.pieces toggle) (tags_of arrived.now) }
    {
        self.forget(toggle);
        self.waiting = Some(*arrived);
    }

    // Tags arrive, with their message toggle where the carrier's tags have one.
    #[tactic(auto, unfolding(crate::specs::Taking::on_tags))]
    pub fn on_tags(&mut self, toggle: Option<bool>, arrived: &Arrived) -> Result<Answer, Refusal>
        ensures reply { result ≡ reply (on_tags P.pieces (view P.held self.old) toggle (tags_of arrived.now)) }
        ensures next { view P.held self.new ≡ next (view P.held self.old) (on_tags P.pieces (view P.held self.old) toggle (tags_of arrived.now)) }
    {
        match toggle {
            Some(toggle) if !self.stands(toggle) => {
                self.begin_tags(toggle, arrived);
                Ok(Answer::Kept)
            }
            _ => self.tags_here(arrived),
        }
    }

    // Tags under the standing toggle.
    fn tags_here(&mut self, arrived: &Arrived) -> Result<Answer, Refusal>
        ensures reply { result ≡ reply (tags_met (view P.held self.old) (view P.held self.old) (tags_of arrived.now) (P.pieces.text (view P.held self.old).held)) }
        ensures next { view P.held self.new ≡ next (view P.held self.old) (tags_met (view P.held self.old) (view P.held self.old) (tags_of arrived.now) (P.pieces.text (view P.held self.old).held)) }
    {
        let Some(text) = self.pieces.text() else {
            self.waiting = Some(*arrived);
            return Ok(Answer::Kept);
        };
        if !arrived.are_lawful(text.len()) {
            return Err(Refusal::TagsUnlawful);
        }
        match &self.told {
            Some(told) if arrived.agree_with(told) => Ok(Answer::Again),
            Some(_) => Err(Refusal::TagsUnlike),
            None => {
                self.waiting = None; // newer tags replace them
                self.told = Some(arrived.tell(text));
                Ok(Answer::Complete)
            }
        }
    }
}
