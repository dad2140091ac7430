//! What follows of spellings from their definitions alone. Each law is the contract of a function
//! that does nothing: a caller learns it by the call.

ghost use Rattle.std.specs.Prelude.{◌≡◌, ◌<◌, ◌≤◌, ◌^◌, ◌↔◌, ℕ, List};
ghost use Rattle.hb_frag.specs.declared.pages.LivePage.{LivePage};
ghost use Rattle.hb_frag.specs.declared.pages.Page.{Page};
ghost use Rattle.hb_frag.specs.declared.pages.Page.TheVariants.{Live, Free};
ghost use Rattle.hb_frag.specs.Rules.{IsFilledRight};
ghost use Rattle.hb_frag.specs.Grammar.{FitsPage, HasSpelling, SpellsPage};
ghost use Rattle.hb_page_codec.specs.Exact.{BytesAreExact, NumbersAreExact, PointsAreExact, BoxesAreExact, RecordsAreExact, PagesAreExact};
ghost use Rattle.hb_page_codec.specs.Weight.{IsLight};

/// A page has a spelling exactly where its fields have their places and are no longer than a page.
/// It has one spelling, and bytes spell at most one page.
pub fn spelling_law()
    ensures exists { (page : Page) → HasSpelling page ↔ ((bytes : List ℕ) × SpellsPage bytes page) }
    ensures one_spelling { (a b : List ℕ) (page : Page) → SpellsPage a page → SpellsPage b page → a ≡ b }
    ensures one_page { (bytes : List ℕ) (p q : Page) → SpellsPage bytes p → SpellsPage bytes q → p ≡ q }
    ensures light { (bytes : List ℕ) (page : Page) → SpellsPage bytes page → IsLight page }
{}

/// A page within its capacity can always be written: a live one that is filled right for
/// capacities of at most 48 and 256, and whose fields have their places, and every free one.
pub fn page_within_capacity_has_spelling()
    ensures live { (page : LivePage) (dcap icap : ℕ) → FitsPage (Live page) → IsFilledRight page dcap icap →
        dcap ≤ 48 → icap ≤ 256 → HasSpelling (Live page) }
    ensures free { (next : ℕ) → next < 2 ^ 32 → HasSpelling (Free next) }
{}

/// A page and its fields are read exactly: what a reader gives is what was spelled at the front of the
/// bytes, and what was spelled is read again, whatever stands behind it.
#[tactic(auto, using(crate::proofs::ExactFields::bytes_exact, crate::proofs::ExactFields::number_4_exact, crate::proofs::ExactFields::number_8_exact, crate::proofs::ExactFields::points_exact, crate::proofs::ExactFields::boxes_exact, crate::proofs::ExactFields::records_exact))]
pub fn fields_are_read_exactly()
    ensures byte { BytesAreExact }
    ensures number_4 { NumbersAreExact 4 }
    ensures number_8 { NumbersAreExact 8 }
    ensures point { PointsAreExact }
    ensures area { BoxesAreExact }
    ensures record_of { RecordsAreExact }
    ensures page { PagesAreExact }
{}
