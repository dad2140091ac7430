//! How often sibling leaves name a page.
ghost use Rattle.std.specs.Prelude.{◌≡◌, ◌==◌, if◌then◌else◌, [], ◌∷◌};
ghost use Rattle.hb_frag.specs.Leaves.{leaves};
ghost use Rattle.hb_sound.specs.Facts.{IsCountedOn, names_in, once_more};

use hb_frag::{Frag, Leaf, Node};

/// How often something was met: it is never asked how often beyond once.
#[derive(Clone, Copy, PartialEq, Eq)]
pub(crate) enum Times {
    Never,
    Once,
    Often,
}

impl Times {
    /// It was met once more.
    fn again(self) -> Times
        ensures { result ≡ once_more self }
    {
        match self {
            Times::Never => Times::Once,
            Times::Once | Times::Often => Times::Often,
        }
    }
}

/// Counts the page of this number, which may be any, once more. A number of no page counts nothing.
pub(crate) fn count_one(id: u32, named: &mut [Times])
    ensures { IsCountedOn (λ other. if id == other then 1 else 0) named.old named.new }
{
    let Some(place) = id.checked_sub(1) else {
        return;
    };
    let place = place as usize;
    if place < named.len() {
        named[place] = named[place].again();
    }
}

/// Counts the page that the leaf names, where it is a sibling leaf.
fn count_leaf(leaf: &Leaf, named: &mut [Times])
    ensures { IsCountedOn (λ id. names_in id (leaf.now ∷ [])) named.old named.new }
{
    match leaf {
        Leaf::Sibling(id) => count_one(*id, named),
        Leaf::Records(_) | Leaf::Child(_) => {}
    }
}

/// Counts the pages that the sibling leaves of a page name.
pub(crate) fn count_names(frag: &Frag, named: &mut [Times])
    ensures { IsCountedOn (λ id. names_in id (leaves frag.now)) named.old named.new }
{
    match &frag.node {
        Node::Tip(leaf) => count_leaf(leaf, named),
        Node::Cut { left, right, .. } => {
            count_names(left, named);
            count_names(right, named);
        }
    }
}
