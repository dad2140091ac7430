//! The bytes of a past moment, and what a crash then might have left.
ghost use Rattle.std.specs.Prelude.{◌≡◌, ◌≤◌, ◌<◌, length, reverse};
ghost use Rattle.hb_disk.specs.Events.{AllLieWithin, rewound, as_synced, IsNoise, IsPicked, IsImage, IsImageSince};

use crate::event::{Event, Pick, fill_at};

/// Takes back all events from that call on, and gives the events that are left.
fn rewind<'a>(bytes: &mut [u8], events: &'a [Event], before: u64) -> &'a [Event]
    requires { AllLieWithin (length bytes.old) (reverse events.now) }
    ensures bytes { bytes.new ≡ (rewound before bytes.old (reverse events.now)).0 }
    ensures events { reverse result.now ≡ (rewound before bytes.old (reverse events.now)).1 }
    ensures reach { AllLieWithin (length bytes.new) (reverse result.now) }
{
    let mut rest = events;
    while let Some((event, earlier)) = rest.split_last() {
        if event.call < before {
            break;
        }
        event.change.undo(bytes);
        rest = earlier;
    }
    rest
}

/// Takes back all events since the last sync.
fn unwind(bytes: &mut [u8], events: &[Event])
    requires { AllLieWithin (length bytes.old) (reverse events.now) }
    ensures { bytes.new ≡ as_synced bytes.old (reverse events.now) }
{
    let mut rest = events;
    while let Some((event, earlier)) = rest.split_last() {
        if event.change.range().is_none() {
            break;
        }
        event.change.undo(bytes);
        rest = earlier;
    }
}

/// Fills each place that isn't synced with the byte.
fn spoil(bytes: &mut [u8], events: &[Event], byte: u8)
    requires { AllLieWithin (length bytes.old) (reverse events.now) }
    ensures { IsNoise byte bytes.old (reverse events.now) bytes.new }
{
    let mut rest = events;
    while let Some((event, earlier)) = rest.split_last() {
        let Some((at, len)) = event.change.range() else {
            break;
        };
        fill_at(bytes, at, len, byte);
        rest = earlier;
    }
}

/// Makes of the bytes at the end of these events the image that is picked.
fn choose(bytes: &mut [u8], events: &[Event], pick: Pick)
    requires { AllLieWithin (length bytes.old) (reverse events.now) }
    ensures { IsPicked pick bytes.old (reverse events.now) bytes.new }
{
    match pick {
        Pick::Old => unwind(bytes, events),
        Pick::New => {}
        Pick::Noise(byte) => spoil(bytes, events, byte),
    }
}

/// Makes of the bytes at the end of these events the image that is picked, of the moment before the call of that number.
pub(crate) fn choose_before(bytes: &mut [u8], events: &[Event], before: u64, pick: Pick)
    requires { AllLieWithin (length bytes.old) (reverse events.now) }
    ensures picked { let moment = rewound before bytes.old (reverse events.now) in IsPicked pick moment.0 moment.1 bytes.new }
    ensures image { let moment = rewound before bytes.old (reverse events.now) in IsImage moment.0 moment.1 bytes.new }
    ensures since { IsImageSince 0 bytes.old (reverse events.now) bytes.new }
{
    let earlier = rewind(bytes, events, before);
    choose(bytes, earlier, pick);
}
