//! Sources that fail, that lack memory, and that give other pages than before.
ghost use Rattle.std.specs.Prelude.{◌≡◌, None};

use crate::rows::expect;
use crate::spelled_files::{KeptPages, Outcome, meta_of};
use hb_frag::Page;
use hb_sound::{AuditStop, PageStop, Pages, audit};
use std::alloc::Global;

// Pages of which the call of this number, from 0, stops so.
#[derive(Drop)]
struct StoppingPages {
    pages: KeptPages,
    at: u32,
    stop: PageStop,
    calls: u32,
    faults: u64,
}

impl Pages for StoppingPages {
    ghost model = { λ s. record { told = None; faults = s.faults } };

    ghost asked = { λ _ _. Unit {0} };

    ghost asked_none = { λ _. tt };

    ghost asked_on = { λ _ _ _ _ _. tt };

    fn page(&mut self, id: u32) -> Result<Option<Page>, PageStop> {
        let call = self.calls;
        self.calls = call.saturating_add(1);
        if call != self.at {
            return self.pages.page(id);
        }
        if self.stop == PageStop::Failed {
            self.faults = self.faults.saturating_add(1);
        }
        Err(self.stop)
    }
}

// A sound file of five pages. The first one has children that stand behind it, the second one two sibling leaves: these
// are asked for twice.
const SOUND: &str =
    "1 * ^2 / 200: ^4 | 0 * 7 / 100: >3 / 200: >4 | 0 100-199 100 | 0 200-* 200 300 / 400: >5 | 0 400-* 400";

// Whether the audit stops so where its source does at this call, from 0, and counts a failure. The source is asked seven times.
fn stops(alloc: Global, at: u32, stop: PageStop, want: AuditStop) -> Option<bool> {
    let mut pages = StoppingPages {
        pages: KeptPages::new(alloc, SOUND, 0, "")?,
        at,
        stop,
        calls: 0,
        faults: 0,
    };
    let answer = audit(alloc, &meta_of(1, (1, 2, 5, 5, 0)), &mut pages);
    let want = if at < 7 { Err(want) } else { Ok(5) };
    let fails = at < 7 && stop == PageStop::Failed;
    let calls = 7.min(at.saturating_add(1));
    Some(answer == want && pages.faults == u64::from(fails) && pages.calls == calls)
}

#[test]
fn a_stop_of_the_source_is_told(rt: HostRuntime) {
    for at in 0..12 {
        let failed = stops(rt.alloc(), at, PageStop::Failed, AuditStop::Failed);
        let starved = stops(rt.alloc(), at, PageStop::NoMemory, AuditStop::NoMemory);
        expect(
            &rt,
            at as usize,
            failed == Some(true) && starved == Some(true),
        );
    }
}

// Pages, and others from the call of this number on, from 0.
#[derive(Drop)]
struct ChangingPages {
    first: KeptPages,
    then: KeptPages,
    at: u32,
    calls: u32,
}

impl Pages for ChangingPages {
    ghost model = { λ _. record { told = None; faults = 0 } };

    ghost asked = { λ _ _. Unit {0} };

    ghost asked_none = { λ _. tt };

    ghost asked_on = { λ _ _ _ _ _. tt };

    fn page(&mut self, id: u32) -> Result<Option<Page>, PageStop> {
        let call = self.calls;
        self.calls = call.saturating_add(1);
        if call < self.at {
            self.first.page(id)
        } else {
            self.then.page(id)
        }
    }
}

// A sound file of three pages, of which the first one is asked for twice. How many pages it says that it has in use, the
// call from which on others stand there, these, and the answer.
const FIRST: &str = "0 * 1 / 10: >2 / 20: >3 | 0 10-19 11 | 0 20-* 21";

const CHANGES: [(u32, u32, &str, Outcome); 11] = [
    (3, 4, "bad | bad | bad", Ok(3)),
    (3, 0, "bad | bad | bad", Err((1, 0))),
    (3, 1, "bad | bad | bad", Err((2, 0))),
    (3, 2, "bad | bad | bad", Err((3, 0))),
    (3, 3, "bad | bad | bad", Err((1, 0))),
    (4, 3, "bad | bad | bad", Err((0, 1))),
    // the first page a second time: a cut that doesn't cut, a sibling leaf that names it; in its place a free page
    (3, 3, "0 * 1 / 0: >2 | 0 10-19 11 | 0 20-* 21", Err((1, 4))),
    (3, 3, "0 * 1 / 10: >1 | 0 10-19 11 | 0 20-* 21", Err((1, 7))),
    (3, 3, "free 0 | 0 10-19 11 | 0 20-* 21", Err((2, 9))),
    // the second page, with another box; and others in the places of those that are asked for once
    (
        3,
        1,
        "0 * 1 / 10: >2 / 20: >3 | 0 11-19 11 | 0 20-* 21",
        Err((1, 7)),
    ),
    (3, 3, "0 * 1 / 10: >2 / 20: >3 | bad | free 0", Ok(3)),
];

// Whether the audit has this outcome then.
fn changes(alloc: Global, live: u32, at: u32, then: &str, want: Outcome) -> Option<bool> {
    let mut pages = ChangingPages {
        first: KeptPages::new(alloc, FIRST, 0, "")?,
        then: KeptPages::new(alloc, then, 0, "")?,
        at,
        calls: 0,
    };
    match audit(alloc, &meta_of(1, (1, 1, 3, live, 0)), &mut pages) {
        Ok(records) => Some(want == Ok(records)),
        Err(AuditStop::Broken { page, rule }) => Some(want == Err((page, rule))),
        Err(_) => None,
    }
}

#[test]
fn a_source_may_give_other_pages_than_before(rt: HostRuntime) {
    for (place, &(live, at, then, want)) in CHANGES.iter().enumerate() {
        let right = changes(rt.alloc(), live, at, then, want);
        expect(&rt, place, right == Some(true));
    }
}
