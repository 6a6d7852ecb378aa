//! How many different numbers stand above an object.
ghost use Rattle.std.specs.Prelude.{◌≡◌, ◌||◌, IsSortedByKey};
ghost use Rattle.std.specs.Ordering.{nat_cmp};
ghost use Rattle.spatial_tree.specs.inner.Onlys.{Has, Counts, with_number, is_several, next_in};

use crate::relations::Link;

/// How many different numbers there are.
#[derive(Clone, Copy)]
pub enum Only {
    Nothing,
    One(u64),
    /// Two or more.
    Several,
}

impl Only {
    /// With one number more.
    fn with(self, number: u64) -> Only
        ensures { result ≡ with_number self number }
    {
        match self {
            Only::Nothing => Only::One(number),
            Only::One(first) => {
                if first == number {
                    Only::One(first)
                } else {
                    Only::Several
                }
            }
            Only::Several => Only::Several,
        }
    }

    fn is_several(self) -> bool
        ensures { result ≡ is_several self }
    {
        matches!(self, Only::Several)
    }
}

/// What stands above an object, by pairs that rise by their objects.
pub fn count_above(links: &[Link], object: u64) -> Only
    requires { IsSortedByKey (λ l. l.object) nat_cmp links.now }
    ensures { Counts (Has links.now object) result }
{
    let mut only = Only::Nothing;
    let first = links.partition_point(|link| link.object < object);
    for at in first..links.len() {
        let link = links[at];
        if link.object != object {
            return only;
        }
        only = only.with(link.above);
    }
    only
}

/// Whether there are two different containers, or two different wholes.
pub fn is_torn(containers: Only, wholes: Only) -> bool
    ensures { result ≡ (is_several containers || is_several wholes) }
{
    containers.is_several() || wholes.is_several()
}

/// The next object on the way up: the one container, else the one whole.
pub fn next_above(containers: Only, wholes: Only) -> Option<u64>
    ensures { result ≡ next_in containers wholes }
{
    match (containers, wholes) {
        (Only::One(container), _) => Some(container),
        (Only::Nothing, Only::One(whole)) => Some(whole),
        _ => None,
    }
}
