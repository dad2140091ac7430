//! Two pages of a level become one.

ghost use Rattle.std.specs.Prelude.{◌≡◌, ◌≢◌, ◌+◌, ◌*◌, ◌≤◌, ◌↔◌, Contains, IfOk, IsErrOf, IsTrue};
ghost use Rattle.hb_frag.specs.declared.leaves.Leaf.TheVariants.{Child};
ghost use Rattle.hb_frag.specs.Leaves.{leaves, weight_of};
ghost use Rattle.hb_frag.specs.Paths.{sibling_way};
ghost use Rattle.hb_frag.specs.Rules.{capacity_of, most_merged};
ghost use Rattle.hb_ops.specs.Merging.{FitsMerge, MayMerge, NamesBoth, kept_page, merged_weight, parent_page, released, taken_over};
ghost use Rattle.hb_ops.specs.Sound.{FitsFile};
ghost use Rattle.hb_ops.specs.declared.changes.ChangeError.TheVariants.{Unfit, NoMemory as Starved};

use crate::local::local_rule;
use crate::{ChangeError, Meta};
use hb_frag::laws::ways_lead_to_siblings;
use hb_frag::{Frag, LivePage, capacity_of, most_merged, normal};
use hb_space::NoMemory;
use std::alloc::Global;

/// Two pages that are to become one, the one to keep and the one to go, and their parent.
#[derive(Clone, Copy)]
pub(crate) struct Merging<'a> {
    pub(crate) above: &'a LivePage,
    pub(crate) kept: &'a LivePage,
    pub(crate) going: &'a LivePage,
}

/// The parent and the page to keep as they are afterwards, where the merge is allowed; the numbers are those of the parent, the page to
/// keep and the page to go.
pub(crate) fn merge(
    alloc: Global,
    meta: &Meta,
    parent: u32,
    keep: u32,
    gone: u32,
    pages: &Merging<'_>,
) -> Result<(LivePage, LivePage), ChangeError>
    ensures allowed { IfOk result (λ made. FitsMerge meta.now parent keep gone pages.now.above.now pages.now.kept.now pages.now.going.now) }
    ensures effect { IfOk result (λ made. (made.0 ≡ parent_page keep gone pages.now.above.now) × (made.1 ≡ kept_page gone pages.now.kept.now pages.now.going.now)) }
    ensures unfit { IsErrOf result Unfit → ¬ (FitsMerge meta.now parent keep gone pages.now.above.now pages.now.kept.now pages.now.going.now) }
    ensures memory { IsErrOf result Starved → FitsMerge meta.now parent keep gone pages.now.above.now pages.now.kept.now pages.now.going.now }
{
    if !fits(meta, parent, keep, gone, pages) {
        return Err(ChangeError::Unfit);
    }
    match both_after(alloc, keep, gone, pages) {
        Ok(made) => Ok(made),
        Err(_) => Err(ChangeError::NoMemory),
    }
}

// Whether the two pages may become one.
fn fits(meta: &Meta, parent: u32, keep: u32, gone: u32, pages: &Merging<'_>) -> bool
    ensures { IsTrue result ↔ FitsMerge meta.now parent keep gone pages.now.above.now pages.now.kept.now pages.now.going.now }
{
    if !are_others(parent, keep, gone) || meta.live == 0 {
        return false;
    }
    if !are_well_made(meta, pages) {
        return false;
    }
    are_named(keep, gone, pages) && may_merge(meta, gone, pages)
}

// Whether the three pages have different numbers.
fn are_others(parent: u32, keep: u32, gone: u32) -> bool
    ensures { IsTrue result ↔ ((parent ≢ keep) × (parent ≢ gone) × (keep ≢ gone)) }
{
    parent != keep && parent != gone && keep != gone
}

// Whether each of the pages keeps the rules that speak of it alone.
fn are_well_made(meta: &Meta, pages: &Merging<'_>) -> bool
    ensures { IsTrue result ↔ (FitsFile meta.now pages.now.above.now × FitsFile meta.now pages.now.kept.now × FitsFile meta.now pages.now.going.now) }
{
    local_rule(pages.above, meta).is_none()
        && local_rule(pages.kept, meta).is_none()
        && local_rule(pages.going, meta).is_none()
}

// Whether the parent is one level above the two others, and names both.
fn are_named(keep: u32, gone: u32, pages: &Merging<'_>) -> bool
    ensures { IsTrue result ↔ NamesBoth pages.now.above.now keep pages.now.kept.now gone pages.now.going.now }
{
    are_below(pages.kept, pages.going, pages.above) && names_two(pages.above, keep, gone)
}

// Whether two pages are one level below another one.
fn are_below(one: &LivePage, other: &LivePage, above: &LivePage) -> bool
    ensures { IsTrue result ↔ ((one.now.level + 1 ≡ above.now.level) × (other.now.level + 1 ≡ above.now.level)) }
{
    is_below(one, above) && is_below(other, above)
}

// Whether a page names both pages.
fn names_two(above: &LivePage, one: u32, other: u32) -> bool
    ensures { IsTrue result ↔ (Contains (leaves above.now.frag) (Child one) × Contains (leaves above.now.frag) (Child other)) }
{
    above.names(one) && above.names(other)
}

// Whether a page is one level below another one.
fn is_below(page: &LivePage, above: &LivePage) -> bool
    ensures { IsTrue result ↔ (page.now.level + 1 ≡ above.now.level) }
{
    u16::from(page.level) + 1 == u16::from(above.level)
}

// Whether these pages may become one, which are well made.
fn may_merge(meta: &Meta, gone: u32, pages: &Merging<'_>) -> bool
    requires above { FitsFile meta.now pages.now.above.now }
    requires kept { FitsFile meta.now pages.now.kept.now }
    requires going { FitsFile meta.now pages.now.going.now }
    ensures { IsTrue result ↔ MayMerge pages.now.above.now pages.now.kept.now gone pages.now.going.now (capacity_of pages.now.kept.now.level meta.now.dcap meta.now.icap) }
{
    pages.kept.sibling_area(gone).is_some()
        && pages.above.directly(&pages.going.area)
        && are_light(meta, pages.kept, pages.going)
}

// Whether two pages are light enough to become one.
fn are_light(meta: &Meta, kept: &LivePage, going: &LivePage) -> bool
    requires kept { FitsFile meta.now kept.now }
    requires going { FitsFile meta.now going.now }
    ensures { IsTrue result ↔ (merged_weight kept.now going.now ≤ most_merged (capacity_of kept.now.level meta.now.dcap meta.now.icap)) }
{
    let most = capacity_of(kept.level, meta.dcap, meta.icap);
    let merged = page_weight(kept, most).saturating_sub(1)
        + page_weight(going, capacity_of(going.level, meta.dcap, meta.icap));
    merged <= most_merged(most)
}

// What a page weighs that weighs at most so much.
fn page_weight(page: &LivePage, most: u16) -> u64
    requires { weight_of page.now.frag ≤ most }
    ensures weight { result ≡ weight_of page.now.frag }
    ensures light { result ≤ most }
{
    u64::from(page.weight())
}

// The parent and the page to keep afterwards.
fn both_after(
    alloc: Global,
    keep: u32,
    gone: u32,
    pages: &Merging<'_>,
) -> Result<(LivePage, LivePage), NoMemory>
    ensures { IfOk result (λ made. (made.0 ≡ parent_page keep gone pages.now.above.now) × (made.1 ≡ kept_page gone pages.now.kept.now pages.now.going.now)) }
{
    let parent = parent_after(alloc, pages.above, keep, gone)?;
    let frag = taken_over(alloc, gone, pages.kept, pages.going)?;
    Ok((parent, with_frag(pages.kept, frag)))
}

// A page of the same level and box, with another inside.
fn with_frag(page: &LivePage, frag: Frag) -> LivePage
    ensures level { result.level ≡ page.now.level }
    ensures area { result.area ≡ page.now.area }
    ensures frag { result.frag ≡ frag }
{
    LivePage {
        level: page.level,
        area: page.area.copy(),
        frag,
    }
}

// What the page to keep has inside afterwards.
fn taken_over(alloc: Global, gone: u32, kept: &LivePage, going: &LivePage) -> Result<Frag, NoMemory>
    ensures { IfOk result (λ frag. frag ≡ taken_over kept.now going.now (sibling_way gone kept.now.frag)) }
{
    ways_lead_to_siblings();
    match kept.sibling_path(alloc, gone)? {
        None => kept.frag.copy(alloc),
        Some(path) => {
            let frag = kept.frag.copy_with(alloc, &path, going.frag.copy(alloc)?)?;
            normal(alloc, frag)
        }
    }
}

/// What the file says of itself once the page is free.
pub(crate) fn released(meta: &Meta, gone: u32) -> Meta
    requires { 1 ≤ meta.now.live }
    ensures { result ≡ released meta.now gone }
{
    Meta {
        live: meta.live - 1,
        free: gone,
        ..*meta
    }
}

/// The parent once the page `gone` has merged into the page `keep`: each child leaf that named the one
/// names the other.
pub fn parent_after(
    alloc: Global,
    above: &LivePage,
    keep: u32,
    gone: u32,
) -> Result<LivePage, NoMemory>
    ensures { IfOk result (λ page. page ≡ parent_page keep gone above.now) }
{
    let frag = above.frag.copy_renamed(alloc, gone, keep)?;
    Ok(LivePage {
        level: above.level,
        area: above.area.copy(),
        frag: normal(alloc, frag)?,
    })
}
