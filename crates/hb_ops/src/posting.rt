//! A page gets a child leaf to a page to which its child gave a box.

ghost use Rattle.std.specs.Prelude.{◌≡◌, ◌≢◌, ◌+◌, ◌<◌, ◌≤◌, ◌^◌, ◌↔◌, ℕ, length, IfOk, IsErrOf, IsTrue, MatchOption};
ghost use Rattle.hb_space.specs.Boxes.{Area as Extent, Meets};
ghost use Rattle.hb_frag.specs.Carving.{carved};
ghost use Rattle.hb_frag.specs.Leaves.{weight_of, WellCut};
ghost use Rattle.hb_frag.specs.declared.leaves.Leaf.TheVariants as kinds;
ghost use Rattle.hb_frag.specs.Trees.{Tip};
ghost use Rattle.hb_ops.specs.Posting.{FitsPost, IsChildAt, post_page, PostsAt};
ghost use Rattle.hb_ops.specs.Sound.{FitsFile};
ghost use Rattle.hb_ops.specs.declared.changes.ChangeError.TheVariants.{Unfit, NoMemory as Starved};

use crate::local::local_rule;
use crate::{ChangeError, Meta};
use hb_frag::laws::a_carved_leaf_joins_others_only_whole;
use hb_frag::{Frag, Leaf, LivePage, Node, Path, carve, carved_weight, normal};
use hb_space::{Area, NoMemory};
use std::alloc::Global;

// What is posted, and where.
#[derive(Clone, Copy)]
struct Posting<'a> {
    at: &'a Path,
    inner: u32,
    area: &'a Area,
}

/// The page in which, at the child leaf to which the path leads, the page `inner` is named over what the leaf's box has in common with
/// `area`, where that is allowed.
pub(crate) fn post(
    alloc: Global,
    page: &LivePage,
    meta: &Meta,
    at: &Path,
    inner: u32,
    area: &Area,
) -> Result<LivePage, ChangeError>
    requires attributes { length area.now.lo ≡ meta.now.k }
    ensures allowed { IfOk result (λ made. FitsPost meta.now page.now at.now inner area.now) }
    ensures effect { IfOk result (λ made. made ≡ post_page at.now inner area.now page.now) }
    ensures unfit { IsErrOf result Unfit → ¬ (FitsPost meta.now page.now at.now inner area.now) }
    ensures memory { IsErrOf result Starved → FitsPost meta.now page.now at.now inner area.now }
{
    let posting = Posting { at, inner, area };
    match leaf_for(page, meta, posting) {
        None => Err(ChangeError::Unfit),
        Some((outer, leaf)) => match named(alloc, page, posting, outer, &leaf) {
            Ok(made) => Ok(made),
            Err(_) => Err(ChangeError::NoMemory),
        },
    }
}

// The page that the child leaf names to which the path leads, and its box. `None` where the page
// `inner` may not be named there.
#[tactic(auto, using(crate::proofs::PostTests::posts_at, crate::proofs::PostTests::no_child))]
fn leaf_for(page: &LivePage, meta: &Meta, posting: Posting<'_>) -> Option<(u32, Area)>
    requires attributes { length posting.area.now.lo ≡ meta.now.k }
    ensures { MatchOption result
        (¬ (FitsPost meta.now page.now posting.entry.at.now posting.entry.inner posting.entry.area.now))
        (λ leaf. PostsAt meta.now page.now posting.entry.at.now posting.entry.inner posting.entry.area.now leaf.0 leaf.1) }
{
    if local_rule(page, meta).is_some() {
        return None;
    }
    if page.level == 0 {
        return None;
    }
    match child_at(page, posting.at) {
        None => None,
        Some((outer, leaf)) => {
            if may_name(page, meta, posting, outer, &leaf) {
                Some((outer, leaf))
            } else {
                None
            }
        }
    }
}

// The page that the child leaf names to which the path leads, and its box. `None` where the path
// leads elsewhere.
fn child_at(page: &LivePage, at: &Path) -> Option<(u32, Area)>
    requires { WellCut page.now }
    ensures { MatchOption result
        ((outer : ℕ) (leaf : Extent) → ¬ (IsChildAt at.now page.now outer leaf))
        (λ leaf. IsChildAt at.now page.now leaf.0 leaf.1) }
{
    match page.subtree(at) {
        None => None,
        Some((frag, area)) => match child_name(frag) {
            None => None,
            Some(outer) => Some((outer, area)),
        },
    }
}

// The page that a part names that is a child leaf. `None` where it is something else.
fn child_name(frag: &Frag) -> Option<u32>
    ensures { MatchOption result
        ((page : ℕ) → ¬ (frag.now ≡ Tip (kinds.Child page)))
        (λ page. frag.now ≡ Tip (kinds.Child page)) }
{
    match &frag.node {
        Node::Tip(Leaf::Child(page)) => Some(*page),
        _ => None,
    }
}

// Whether the page `inner` may be named at the child leaf of this box that names `outer`.
fn may_name(page: &LivePage, meta: &Meta, posting: Posting<'_>, outer: u32, leaf: &Area) -> bool
    requires made { FitsFile meta.now page.now }
    requires above { 0 < page.now.level }
    requires leaf { IsChildAt posting.at.now page.now outer leaf.now }
    requires attributes { length posting.area.now.lo ≡ meta.now.k }
    ensures { IsTrue result ↔ FitsPost meta.now page.now posting.entry.at.now posting.entry.inner posting.entry.area.now }
{
    a_carved_leaf_joins_others_only_whole();
    let Posting { inner, area, .. } = posting;
    if outer == inner {
        return false;
    }
    if !leaf.meets(area) {
        return false;
    }
    has_room(page, meta, leaf, area)
}

// Whether the page has room for the leaf once it is carved.
fn has_room(page: &LivePage, meta: &Meta, leaf: &Area, area: &Area) -> bool
    requires light { weight_of page.now.frag ≤ meta.now.icap }
    requires meets { Meets leaf.now area.now }
    requires attributes { length area.now.lo ≡ length leaf.now.lo }
    ensures { (outer inner : ℕ) → IsTrue result ↔
        (weight_of page.now.frag + weight_of (carved leaf.now area.now outer inner) ≤ meta.now.icap + 1) }
{
    let capacity = meta.icap;
    let weight = u64::from(page.weight()) + u64::from(carved_weight(leaf, area));
    weight <= u64::from(capacity) + 1
}

// The page with the leaf carved, and no cuts whose two sides should be one leaf.
#[tactic(auto, using(crate::proofs::PostTests::leaf_inside, crate::proofs::PostTests::page_named))]
fn named(
    alloc: Global,
    page: &LivePage,
    posting: Posting<'_>,
    outer: u32,
    leaf: &Area,
) -> Result<LivePage, NoMemory>
    requires leaf { IsChildAt posting.at.now page.now outer leaf.now }
    requires meets { Meets leaf.now posting.area.now }
    requires attributes { length posting.area.now.lo ≡ length leaf.now.lo }
    ensures { IfOk result (λ made. made ≡ post_page posting.entry.at.now posting.entry.inner posting.entry.area.now page.now) }
{
    let carved = carve(alloc, leaf, posting.area, outer, posting.inner)?;
    let frag = page.frag.copy_with(alloc, posting.at, carved)?;
    Ok(LivePage {
        level: page.level,
        area: page.area.copy(),
        frag: normal(alloc, frag)?,
    })
}
