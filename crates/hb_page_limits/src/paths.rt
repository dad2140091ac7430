//! Ways of 0 to 313 steps, the longest that a page can have.

ghost use Rattle.hb_frag.specs.Leaves.{WellCut};

use crate::pages::{Beside, Row, page_of, reaches};
use hb_frag::{Frag, Leaf, LivePage, Path, Side, normal, replace};
use hb_space::form::PAGE;
use std::alloc::Global;

/// How many cuts have room in a page of one attribute, 20 bytes behind its beginning: a cut takes 10, and a leaf without
/// records 3, and there is one leaf more than cuts.
const CUTS: u32 = (PAGE as u32 - 20 - 3) / (10 + 3);

/// A copy of the page's part, without cuts that part nothing, and its children.
fn copied(alloc: Global, page: &LivePage) -> Option<()> {
    normal(alloc, page.frag.copy(alloc).ok()?).ok()?;
    page.children(alloc).ok()?;
    Some(())
}

/// Another leaf at the end of the path, in a copy and in place.
fn replaced(alloc: Global, page: LivePage, path: &Path) -> Option<()>
    requires { WellCut page }
{
    if page.subtree(path).is_none() {
        return None;
    }
    let leaf = Frag::tip(Leaf::Sibling(999));
    page.frag.copy_with(alloc, path, leaf).ok()?;
    let leaf = Frag::tip(Leaf::Sibling(999));
    replace(page.frag, path, leaf).ok()?;
    Some(())
}

/// A page with a way of so many steps, where it has room.
fn is_reached(alloc: Global, row: Row, steps: u32) -> Option<()> {
    let level = match row.beside {
        Beside::Child => 1,
        Beside::Sibling | Beside::Nothing => 0,
    };
    let fields = row.fields(alloc, level, steps).ok()?;
    if fields.len() > PAGE {
        return Some(());
    }
    let page = page_of(alloc, fields)?;
    let point = row.within()?;
    if !reaches(&page, &point) {
        return None;
    }
    copied(alloc, &page)?;
    let path = page.path_to(alloc, &point).ok()?;
    replaced(alloc, page, &path)
}

/// Ways of all lengths, with each kind of leaves beside them. The longest go to either side, over one attribute.
pub(crate) fn all_lengths(alloc: Global) -> Option<()> {
    for steps in 0..=CUTS {
        let k = ((CUTS - steps) % 4 + 1) as u8;
        let (even, odd) = if steps % 2 == 0 {
            (Side::Left, Side::Right)
        } else {
            (Side::Right, Side::Left)
        };
        for (side, beside) in [
            (even, Beside::Child),
            (odd, Beside::Sibling),
            (even, Beside::Nothing),
            (odd, Beside::Nothing),
        ] {
            is_reached(alloc, Row { k, side, beside }, steps)?;
        }
    }
    Some(())
}
