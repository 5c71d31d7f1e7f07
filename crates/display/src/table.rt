ghost use Rattle.std.specs.Prelude.{◌≡◌, ℕ, ◌<◌, ◌≤◌, ◌&&◌, length, if◌then◌else◌, nat_eq, Some};
ghost use Rattle.label.specs.Classes.{item_class};
ghost use Rattle.label.specs.Tags.{deletion};
ghost use Rattle.carrier.specs.Aired.{told_label};
ghost use Rattle.agreement.specs.Rules.{emptied, breaks, rule_1, rule_2, rule_3, on_label};
ghost use Rattle.display.specs.Held.{held, toggle_of, table_of, ChangesRows, empties, is_stored};

use crate::marked::Marked;
use arrayvec::ArrayVec;
use carrier::told::Told;
use label::tag::ItemBits;

// For each class a text, empty for nothing, and the item bits of the last complete label.
#[derive(Default, Drop)]
pub(crate) struct ClassTable {
    pub(crate) rows: [ArrayVec<u8, 128>; 64],
    pub(crate) last: Option<ItemBits>,
}

impl ClassTable {
    // What is held for a class.
    pub(crate) fn row(&self, class: u8) -> &[u8]
        requires { class < 64 }
        ensures { result.now ≡ held self.now class }
    {
        self.rows[class as usize].as_slice()
    }

    // The rules on a complete label.
    pub(crate) fn apply(&mut self, told: &Told)
        ensures table { table_of self.new ≡ on_label (table_of self.old) (told_label told.now) }
        ensures last { self.new.last ≡ Some told.now.item }
        ensures small { ((k : ℕ) → length (held self.old k) ≤ 128) → (k : ℕ) → length (held self.new k) ≤ 128 }
    {
        self.rule_1(told);
        self.rule_2(told);
        self.rule_3(told);
        self.last = Some(told.item);
    }

    // 1. If running is 0, or the toggle is not that of the last complete label, all Item classes are emptied.
    fn rule_1(&mut self, told: &Told)
        ensures rows { ChangesRows self.old self.new (rule_1 (toggle_of self.old.last) (told_label told.now)) }
        ensures small { ((k : ℕ) → length (held self.old k) ≤ 128) → (k : ℕ) → length (held self.new k) ≤ 128 }
    {
        if self.is_other_item(told.item) {
            self.clear_items();
        }
    }

    // 2. Deletions empty their class; one in Item empties all Item classes.
    fn rule_2(&mut self, told: &Told)
        ensures rows { ChangesRows self.old self.new (rule_2 (told_label told.now)) }
        ensures small { ((k : ℕ) → length (held self.old k) ≤ 128) → (k : ℕ) → length (held self.new k) ≤ 128 }
    {
        for tag in told.tags.as_slice() {
            self.delete(Marked::by(*tag, told));
        }
    }

    // 3. The other parts are stored, Item parts only while running is 1.
    fn rule_3(&mut self, told: &Told)
        ensures rows { ChangesRows self.old self.new (rule_3 (told_label told.now)) }
        ensures small { ((k : ℕ) → length (held self.old k) ≤ 128) → (k : ℕ) → length (held self.new k) ≤ 128 }
    {
        for tag in told.tags.as_slice() {
            self.store(Marked::by(*tag, told), told.item.running);
        }
    }

    // Whether a label with these item bits is not of the item of the last complete label.
    fn is_other_item(&self, item: ItemBits) -> bool
        ensures { result ≡ breaks (toggle_of self.now.last) item }
    {
        self.last
            .is_none_or(|last| !item.running || item.toggle != last.toggle)
    }

    // Empties what a part deletes, if it is a deletion.
    fn delete(&mut self, marked: Marked<'_>)
        ensures { ChangesRows self.old self.new (λ k old. emptied (deletion marked.entry.part.now && empties marked.entry.class k) old) }
    {
        if marked.is_deletion() {
            self.clear_for(marked);
        }
    }

    // What a deletion in its class empties.
    fn clear_for(&mut self, marked: Marked<'_>)
        ensures { ChangesRows self.old self.new (λ k old. emptied (empties marked.entry.class k) old) }
    {
        if marked.is_item() {
            self.clear_items(); // the old song as a whole
        } else {
            self.rows[marked.class as usize].clear();
        }
    }

    // Empties all Item classes.
    #[tactic(auto, using(crate::proofs::Rows::row_cleared))]
    fn clear_items(&mut self)
        ensures { ChangesRows self.old self.new (λ k old. emptied (item_class k) old) }
    {
        // a part is lent of a slice, not yet of a field that is an array
        let rows = &mut self.rows[..];
        for row in &mut rows[1..=11] {
            row.clear();
        }
    }

    // Stores a part, if it is one that is stored.
    fn store(&mut self, marked: Marked<'_>, running: bool)
        ensures { ChangesRows self.old self.new (λ k old. if nat_eq marked.entry.class k && is_stored marked.entry.class marked.entry.part.now running then marked.entry.part.now else old) }
    {
        if marked.is_stored(running) {
            self.put(marked);
        }
    }

    fn put(&mut self, marked: Marked<'_>)
        ensures { ChangesRows self.old self.new (λ k old. if nat_eq marked.entry.class k then marked.entry.part.now else old) }
    {
        self.rows[marked.class as usize] = ArrayVec::try_from(marked.part).unwrap();
    }
}
