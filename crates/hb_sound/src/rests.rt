//! What the second reading is to find out of a page.
ghost use Rattle.std.specs.Prelude.{◌≡◌, ◌↔◌, ◌⊎◌, ◌++◌, ℕ, List, [], ◌∷◌, IsTrue};
ghost use Rattle.hb_frag.specs.Leaves.{IsWellCut, Placed, WellCut, leaves_of};
ghost use Rattle.hb_frag.specs.declared.leaves.Leaf.TheVariants.{Child, Sibling};
ghost use Rattle.hb_sound.specs.declared.page_facts.Fact.{Fact as FactSeen};
ghost use Rattle.hb_sound.specs.declared.rests.Rest.TheVariants.{Nothing, Lone, More};
ghost use Rattle.hb_sound.specs.Links.{IsRestOf};

use crate::corners::Corners;
use crate::links::sees_below;
use crate::page_facts::Fact;
use hb_frag::{Frag, Leaf, LivePage, Node};
use hb_space::Area;

/// What of a page's leaves is still to be looked up once all pages were read.
#[derive(Drop)]
pub(crate) enum Rest {
    /// Nothing: it has no sibling leaf, and its child leaves keep rule 8.
    Nothing,
    /// This sibling leaf with its box: it has no other, and its child leaves keep rule 8.
    Lone { name: u32, area: Area },
    /// It may be more: the page is read once more.
    More,
}

/// Whether nothing is.
fn is_nothing(rest: &Rest) -> bool
    ensures { IsTrue result ↔ (rest.now ≡ Nothing) }
{
    matches!(rest, Rest::Nothing)
}

/// This sibling leaf with the box of these corners.
fn lone(name: u32, corners: &Corners) -> Rest
    ensures { (result ≡ More) ⊎ (result ≡ Lone name corners.now) }
{
    match corners.area() {
        Some(area) => Rest::Lone { name, area },
        None => Rest::More,
    }
}

/// Adds a sibling leaf with the box of these corners.
fn add_sibling(rest: &mut Rest, name: u32, corners: &Corners)
    ensures { (facts : List FactSeen) (level : ℕ) (before : List Placed) → IsRestOf facts level before rest.old
        → IsRestOf facts level (before ++ record { leaf = Sibling name; area = corners.now } ∷ []) rest.new }
{
    *rest = if is_nothing(rest) {
        lone(name, corners)
    } else {
        Rest::More
    };
}

/// Adds a child leaf with the box of these corners, which is looked up among these facts.
fn add_child(rest: &mut Rest, facts: &[Fact], level: u8, name: u32, corners: &Corners)
    ensures { (before : List Placed) → IsRestOf facts.now level before rest.old
        → IsRestOf facts.now level (before ++ record { leaf = Child name; area = corners.now } ∷ []) rest.new }
{
    if !sees_below(facts, level, name, corners) {
        *rest = Rest::More;
    }
}

/// Adds a leaf with the box of these corners.
fn add_leaf(rest: &mut Rest, facts: &[Fact], level: u8, leaf: &Leaf, corners: &Corners)
    ensures { (before : List Placed) → IsRestOf facts.now level before rest.old
        → IsRestOf facts.now level (before ++ record { leaf = leaf.now; area = corners.now } ∷ []) rest.new }
{
    match leaf {
        Leaf::Records(_) => {}
        Leaf::Child(name) => add_child(rest, facts, level, *name, corners),
        Leaf::Sibling(name) => add_sibling(rest, *name, corners),
    }
}

/// Adds the leaves of a part with the box of these corners, which stay as they are.
fn add_leaves(rest: &mut Rest, facts: &[Fact], level: u8, frag: &Frag, corners: &mut Corners)
    requires { IsWellCut frag.now corners.old }
    ensures rest { (before : List Placed) → IsRestOf facts.now level before rest.old
        → IsRestOf facts.now level (before ++ leaves_of frag.now corners.old) rest.new }
    ensures same { corners.new ≡ corners.old }
{
    match &frag.node {
        Node::Tip(leaf) => add_leaf(rest, facts, level, leaf, corners),
        Node::Cut {
            axis,
            value,
            left,
            right,
        } => {
            let greatest = corners.replace_hi(*axis, *value - 1);
            add_leaves(rest, facts, level, left, corners);
            corners.replace_hi(*axis, greatest);
            let least = corners.replace_lo(*axis, *value);
            add_leaves(rest, facts, level, right, corners);
            corners.replace_lo(*axis, least);
        }
    }
}

/// What of the leaves of a page that breaks this rule by itself, or none, is still to be looked up behind these facts.
pub(crate) fn rest_of(rule: u8, facts: &[Fact], page: &LivePage) -> Rest
    requires { rule ≡ 0 → WellCut page.now }
    ensures { IsRestOf facts.now page.now.level (leaves_of page.now.frag page.now.area) result }
{
    if rule != 0 {
        return Rest::More;
    }
    let mut corners = Corners::of(&page.area);
    let mut rest = Rest::Nothing;
    add_leaves(&mut rest, facts, page.level, &page.frag, &mut corners);
    rest
}
