//! The boxes by which a parent and a page to keep name the pages that a consolidator wants.
ghost use Rattle.std.specs.Prelude.{◌≡◌, IfSome};
ghost use Rattle.hb_frag.specs.Leaves.{WellCut};
ghost use Rattle.hb_ops.specs.Files.{if_live};
ghost use Rattle.hb_view.specs.Views.{IsLiveAnd};
ghost use Rattle.hb_steps.specs.Asking.{box_by_view, box_of_child, box_of_place, box_of_sibling};
ghost use Rattle.hb_core.specs.CoreSeen.{core_seen};
ghost use Rattle.hb_steps.specs.Machines.{live_here};

use crate::state::Core;
use hb_disk::Device;
use hb_space::Area;
use hb_steps::{AskedBox, BoxTest};
use hb_view::{LeafView, PageView};

impl<D: Device> Core<D> {
    /// The box of the first child leaf from the left that names the child, in the page of this number.
    pub(crate) fn child_box(&self, id: u32, child: u32) -> Option<AskedBox>
        ensures { result ≡ box_of_child (live_here (core_seen self.now).store id) child }
    {
        let view = self.cut_page(id)?;
        let area = view.child_area(child)?;
        Some(AskedBox {
            area,
            test: BoxTest::Around,
        })
    }

    /// The box of the leaf at this place from the left, in the page of this number.
    pub(crate) fn place_box(&self, id: u32, place: u32) -> Option<AskedBox>
        ensures { result ≡ box_of_place (live_here (core_seen self.now).store id) place }
    {
        let view = self.cut_page(id)?;
        let (leaf, area) = view.leaf(place)?;
        box_by_leaf(leaf, area)
    }

    /// The box of the first sibling leaf from the left that names the page to go, in the page of this number.
    pub(crate) fn sibling_box(&self, id: u32, gone: u32) -> Option<AskedBox>
        ensures { result ≡ box_of_sibling (live_here (core_seen self.now).store id) gone }
    {
        let view = self.cut_page(id)?;
        let area = view.sibling_area(gone)?;
        Some(AskedBox {
            area,
            test: BoxTest::Exactly,
        })
    }

    /// The page of the number, where it is in memory and in use. Every cut of it cuts its box.
    fn cut_page(&self, id: u32) -> Option<PageView<'_>>
        ensures page { if_live result ≡ live_here (core_seen self.now).store id }
        ensures cut { IfSome result (λ view. IsLiveAnd view WellCut) }
    {
        let view = self.store.get(id)?;
        if view.is_live() { Some(view) } else { None }
    }
}

/// The box of the page that a leaf names: a sibling has the leaf's, and a child has it within its own.
pub(crate) fn box_by_leaf(leaf: LeafView, area: Area) -> Option<AskedBox>
    ensures { result ≡ box_by_view leaf area }
{
    match leaf {
        LeafView::Records => None,
        LeafView::Child(_) => Some(AskedBox {
            area,
            test: BoxTest::Around,
        }),
        LeafView::Sibling(_) => Some(AskedBox {
            area,
            test: BoxTest::Exactly,
        }),
    }
}
