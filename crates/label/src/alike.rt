ghost use Rattle.std.specs.Prelude.{◌≡◌, not, ◌&&◌};
ghost use Rattle.label.specs.Lists.{any};
ghost use Rattle.label.specs.Tags.{sounds, sounding, same_tag, has, has_all, alike};

use crate::tag::Tag;

// One of the tags sounds and is this tag.
fn is_in(tag: Tag, list: &[Tag]) -> bool
    ensures { result ≡ any (λ t. sounds t && same_tag tag t) list.now }
{
    list.iter().any(|t| t.sounds() && tag == *t)
}

// The tag sounds, and no tag of the list that sounds is this tag.
fn is_missing(tag: Tag, list: &[Tag]) -> bool
    ensures { result ≡ (sounds tag && not (has tag (sounding list.now))) }
{
    tag.sounds() && !is_in(tag, list)
}

// One of the tags is missing in the list.
fn one_is_missing(tags: &[Tag], list: &[Tag]) -> bool
    ensures { result ≡ any (λ t. sounds t && not (has t (sounding list.now))) tags.now }
{
    tags.iter().any(|t| is_missing(*t, list))
}

// The other list has each tag that sounds.
fn has_each(tags: &[Tag], list: &[Tag]) -> bool
    ensures { result ≡ has_all (sounding tags.now) (sounding list.now) }
{
    !one_is_missing(tags, list)
}

// The same tags, silent ones and order aside.
pub fn are_alike(tags: &[Tag], list: &[Tag]) -> bool
    ensures { result ≡ alike tags.now list.now }
{
    has_each(tags, list) && has_each(list, tags)
}
