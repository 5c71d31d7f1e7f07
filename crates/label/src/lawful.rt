ghost use Rattle.std.specs.Prelude.{◌≡◌, not, ◌&&◌};
ghost use Rattle.label.specs.Lists.{any, all};
ghost use Rattle.label.specs.Lawful.{apart, all_apart, accompanied, lawful};
ghost use Rattle.label.specs.Tags.{lies_in, sounds, sounding};

use crate::tag::{Tag, has_descriptor, has_other};

// One of the rest sounds, and cannot stand beside the tag.
fn is_hindered(tag: Tag, rest: &[Tag]) -> bool
    ensures { result ≡ any (λ u. sounds u && not (apart tag u)) rest.now }
{
    rest.iter().any(|u| u.sounds() && !tag.is_apart_from(*u))
}

// The tag sounds, and so does one of the rest that cannot stand beside it.
fn clashes(tag: Tag, rest: &[Tag]) -> bool
    ensures { result ≡ (sounds tag && any (λ u. sounds u && not (apart tag u)) rest.now) }
{
    tag.sounds() && is_hindered(tag, rest)
}

fn are_apart(tags: &[Tag]) -> bool
    ensures { result ≡ all_apart (sounding tags.now) }
{
    for (i, t) in tags.iter().enumerate() {
        if clashes(*t, &tags[i + 1..]) {
            return false;
        }
    }
    true
}

// One of the tags sounds, and its part leaves a text of this many bytes.
fn one_leaves(len: usize, tags: &[Tag]) -> bool
    ensures { result ≡ any (λ t. sounds t && not (lies_in len t)) tags.now }
{
    tags.iter().any(|t| t.sounds() && t.end() > len)
}

fn lie_inside(len: usize, tags: &[Tag]) -> bool
    ensures { result ≡ all (lies_in len) (sounding tags.now) }
{
    !one_leaves(len, tags)
}

fn are_accompanied(tags: &[Tag]) -> bool
    ensures { result ≡ accompanied (sounding tags.now) }
{
    !has_descriptor(tags) || has_other(tags)
}

// The list is lawful for a text of this many bytes.
pub fn is_lawful(len: usize, tags: &[Tag]) -> bool
    ensures { result ≡ lawful len tags.now }
{
    lie_inside(len, tags) && are_apart(tags) && are_accompanied(tags)
}
