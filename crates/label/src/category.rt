ghost use Rattle.std.specs.Prelude.{◌≡◌};
ghost use Rattle.label.specs.Classes.{category_of, silent};

// The category of a content class.
#[derive(Clone, Copy, Debug, PartialEq, Eq)]
pub enum Category {
    Dummy,
    Item,
    Info,
    Programme,
    Interactivity,
    Private,
    Descriptor,
}

impl Category {
    // The category of a class number; the numbers 54, 55 and those above 63 have none. (No TryFrom: a class without a category
    // is no mistake.)
    pub fn of(class: u8) -> Option<Category>
        ensures { result ≡ category_of class }
    {
        match class {
            0 => Some(Category::Dummy),
            1..=11 => Some(Category::Item),
            12..=30 => Some(Category::Info),
            31..=40 => Some(Category::Programme),
            41..=53 => Some(Category::Interactivity),
            56..=58 => Some(Category::Private),
            59..=63 => Some(Category::Descriptor),
            _ => None,
        }
    }
}

// A tag of a silent class marks nothing.
pub fn is_silent(class: u8) -> bool
    ensures { result ≡ silent class }
{
    matches!(Category::of(class), None | Some(Category::Dummy))
}
