//! What follows of pages from their definitions alone. Each law is the contract of a function
//! that does nothing: a caller learns it by the call.

ghost use Rattle.std.specs.Prelude.{◌≡◌, ◌≢◌, ◌≤◌, ◌↔◌, ◌+◌, ◌*◌, ℕ, List, [], length, map, All, Any, AllPairs, Some, None, IsSome};
ghost use Rattle.std.specs.List.{Contains};
ghost use Rattle.std.specs.List.Sorted.{IsPermutation, IsSortedByKey, IsStableByKey};
ghost use Rattle.hb_space.specs.Points.{point_cmp};
ghost use Rattle.hb_space.specs.declared.records.Record.{Record as OneRecord};
ghost use Rattle.hb_space.specs.Boxes.{Area, IsArea, Holds, Meets, Within, Disjoint};
ghost use Rattle.hb_frag.specs.declared.pages.LivePage.{LivePage as OnePage};
ghost use Rattle.hb_frag.specs.declared.leaves.Leaf.{Leaf as OneLeaf};
ghost use Rattle.hb_frag.specs.declared.paths.Side.{Side as Step};
ghost use Rattle.hb_frag.specs.Trees.{Tree, Tip};
ghost use Rattle.hb_frag.specs.Leaves.{Placed, IsWellCut, first_at, first_named, leaves_of, leaves, siblings, with_leaf_at, weight_of, DirectlyHolds, DirectlyCovers, WellCut};
ghost use Rattle.hb_frag.specs.Paths.{part_at, with_part, sibling_way, StaysInside};
ghost use Rattle.hb_frag.specs.Laws.{changed_at, LeadsTo, IsStretch, IsPart, IsWayToSibling};
ghost use Rattle.hb_frag.specs.Renaming.{Renames};
ghost use Rattle.hb_frag.specs.Rules.{IsNormal};
ghost use Rattle.hb_frag.specs.Carving.{carved};
ghost use Rattle.hb_frag.specs.CarvingLaws.{Carves};
ghost use Rattle.hb_frag.specs.Normal.{in_point_order, normal};
ghost use Rattle.hb_frag.specs.NormalLaws.{SaysTheSame};

/// The boxes of a tree's leaves are boxes within the tree's box, of as many attributes. No two
/// share a point, and together they hold exactly its points.
pub fn leaves_part_the_box()
    ensures areas { (t : Tree) (a : Area) → IsArea a → IsWellCut t a → All (λ l. IsArea l.area) (leaves_of t a) }
    ensures attributes { (t : Tree) (a : Area) → All (λ l. length l.area.lo ≡ length a.lo) (leaves_of t a) }
    ensures within { (t : Tree) (a : Area) → IsArea a → IsWellCut t a → All (λ l. Within l.area a) (leaves_of t a) }
    ensures disjoint { (t : Tree) (a : Area) → IsArea a → IsWellCut t a →
        AllPairs (λ l m. Disjoint l.area m.area) (leaves_of t a) }
    ensures cover { (t : Tree) (a : Area) (p : List ℕ) → IsArea a → IsWellCut t a →
        Any (λ l. Holds l.area p) (leaves_of t a) ↔ Holds a p }
{}

/// Each point of a tree's box has one leaf, the one whose box holds it, and other points have
/// none.
pub fn each_point_has_one_leaf()
    ensures some { (t : Tree) (a : Area) (p : List ℕ) → IsArea a → IsWellCut t a →
        IsSome (first_at p (leaves_of t a)) ↔ Holds a p }
    ensures only { (t : Tree) (a : Area) (p : List ℕ) (l : Placed) → IsArea a → IsWellCut t a →
        (first_at p (leaves_of t a) ≡ Some l) ↔ (Contains (leaves_of t a) l × Holds l.area p) }
{}

/// The way to a point of a tree's box leads to the leaf there.
pub fn ways_lead_to_leaves()
    ensures { (t : Tree) (a : Area) (p : List ℕ) → IsArea a → IsWellCut t a → Holds a p →
        (l : Placed) × LeadsTo p t a l }
{}

/// The leaves without their boxes are the tree's leaves, whatever its box.
pub fn placed_leaves_are_the_leaves()
    ensures { (t : Tree) (a : Area) → map (λ l. l.leaf) (leaves_of t a) ≡ leaves t }
{}

/// A change at a point changes the leaf whose box holds it. The boxes and the cuts stay.
pub fn a_change_stays_at_its_leaf()
    ensures leaves { (t : Tree) (a : Area) (p : List ℕ) (change : OneLeaf → OneLeaf) →
        leaves_of (with_leaf_at p change t a) a ≡ map (changed_at p change) (leaves_of t a) }
    ensures cuts { (t : Tree) (a : Area) (p : List ℕ) (change : OneLeaf → OneLeaf) →
        IsWellCut (with_leaf_at p change t a) a ↔ IsWellCut t a }
{}

/// A path stays in a tree exactly where it leads to a part, whatever the tree's box.
pub fn paths_inside_lead_to_parts()
    ensures { (path : List Step) (t : Tree) (a : Area) → StaysInside path t ↔ IsSome (part_at path t a) }
{}

/// A part's leaves are a stretch of the tree's. Another part in its place changes no other leaf,
/// no box but those of the part's leaves, and the weight by the difference of the two.
pub fn parts_are_stretches()
    ensures leaves { (path : List Step) (t : Tree) (a : Area) (part : Tree × Area) →
        part_at path t a ≡ Some part → IsStretch path t a part }
    ensures cuts { (path : List Step) (t : Tree) (a : Area) (part : Tree × Area) →
        part_at path t a ≡ Some part → IsArea a → IsWellCut t a → IsPart path t a part }
    ensures weight { (path : List Step) (t : Tree) (a : Area) (part : Tree × Area) (other : Tree) →
        part_at path t a ≡ Some part →
        weight_of (with_part path t other) + weight_of part.0 ≡ weight_of t + weight_of other }
{}

/// A page directly holds a box exactly where it directly holds each of its points.
pub fn directly_held_is_by_points()
    ensures { (page : OnePage) (a : Area) → IsArea page.area → WellCut page → IsArea a →
        length a.lo ≡ length page.area.lo →
        DirectlyCovers page a ↔ ((p : List ℕ) → Holds a p → DirectlyHolds page p) }
{}

/// Records in the order of their points are the same records, in that order. Those of one point
/// stand as they stood.
pub fn point_order_is_a_stable_order()
    ensures same { (records : List OneRecord) → IsPermutation records (in_point_order records) }
    ensures sorted { (records : List OneRecord) → IsSortedByKey (λ r. r.key) point_cmp (in_point_order records) }
    ensures stable { (records : List OneRecord) → IsStableByKey (λ r. r.key) point_cmp records (in_point_order records) }
{}

/// A tree without cuts whose two sides should be one leaf says the same as the tree. One that has
/// no such cuts stays as it is.
pub fn normal_says_the_same()
    ensures normal { (t : Tree) → IsNormal (normal t) }
    ensures stays { (t : Tree) → IsNormal t → normal t ≡ t }
    ensures same { (t : Tree) → SaysTheSame t (normal t) }
{}

/// A leaf's box that meets an area is parted: the new child is named over what the two have in
/// common, and the old one over the rest, by at most two cuts for each attribute.
pub fn carving_parts_a_leaf()
    ensures parts { (leaf area : Area) (outer inner : ℕ) → IsArea leaf → IsArea area →
        length area.lo ≡ length leaf.lo → Meets leaf area → Carves leaf area outer inner (carved leaf area outer inner) }
    ensures weight { (leaf area : Area) (outer inner : ℕ) →
        weight_of (carved leaf area outer inner) ≤ 2 * length leaf.lo + 1 }
    ensures siblings { (leaf area : Area) (outer inner : ℕ) →
        siblings (leaves_of (carved leaf area outer inner) leaf) ≡ [] }
    ensures normal { (leaf area : Area) (outer inner : ℕ) → inner ≢ outer →
        IsNormal (carved leaf area outer inner) }
{}

/// A child leaf of a tree without cuts that part nothing is carved. Where that makes a cut, none
/// of the tree's cuts parts nothing after it. Where the new child takes the leaf's place, the tree
/// weighs no more after such cuts have gone. So what the tree will weigh is known before it is
/// made.
pub fn a_carved_leaf_joins_others_only_whole()
    ensures stays { (path : List Step) (t : Tree) (a : Area) (leaf area : Area) (outer inner : ℕ) →
        IsNormal t → part_at path t a ≡ Some (Tip (OneLeaf.Child outer), leaf) → inner ≢ outer →
        2 ≤ weight_of (carved leaf area outer inner) →
        normal (with_part path t (carved leaf area outer inner)) ≡ with_part path t (carved leaf area outer inner) }
    ensures whole { (path : List Step) (t : Tree) (a : Area) (leaf area : Area) (outer inner : ℕ) →
        part_at path t a ≡ Some (Tip (OneLeaf.Child outer), leaf) → weight_of (carved leaf area outer inner) ≡ 1 →
        weight_of (normal (with_part path t (carved leaf area outer inner))) ≤ weight_of t }
    ensures room { (path : List Step) (t : Tree) (a : Area) (leaf area : Area) (outer inner capacity : ℕ) →
        IsNormal t → part_at path t a ≡ Some (Tip (OneLeaf.Child outer), leaf) → inner ≢ outer →
        weight_of t ≤ capacity →
        (weight_of (normal (with_part path t (carved leaf area outer inner))) ≤ capacity)
        ↔ (weight_of t + weight_of (carved leaf area outer inner) ≤ capacity + 1) }
{}

/// The path to the first sibling leaf that names a page leads there, and there is one where a sibling
/// leaf names the page.
pub fn ways_lead_to_siblings()
    ensures leads { (id : ℕ) (t : Tree) (a : Area) (way : List Step) →
        sibling_way id t ≡ Some way → IsWayToSibling id t a way }
    ensures none { (id : ℕ) (t : Tree) (a : Area) →
        sibling_way id t ≡ None → first_named id (siblings (leaves_of t a)) ≡ None }
{}

/// Where a page takes another one's place in child leaves, the boxes, the cuts, the sibling leaves and
/// the weight stay as they are.
pub fn renaming_changes_names_alone()
    ensures { (old new : ℕ) (t : Tree) → Renames old new t }
{}
