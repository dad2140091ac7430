//! A log's life over a disk in memory, what crashes and faults leave, and areas that are good, cut short or
//! bad.

ghost use Rattle.std.specs.Prelude.{◌≡◌, ◌≤◌, [], IfSome, IsTrue};
ghost use Rattle.hb_wal.specs.Forces.{MayForce};

use crate::replies::{PICKS, Reply};
use hb_disk::{Device, MemDisk, Pick};
use hb_wal::{Payloads, ReadStop, Wal, read_area, zero_area};
use std::alloc::Global;

// The payloads of the frames in the whole of a disk, or why they aren't read.
fn whole_area(alloc: Global, disk: &mut MemDisk) -> Result<Payloads, ReadStop> {
    match u32::try_from(disk.size()) {
        Ok(len) => read_area(alloc, disk, 0, len),
        Err(_) => Ok(Payloads::new(Vec::new(alloc))),
    }
}

fn payloads(reply: &mut Reply, payloads: &Payloads) {
    for payload in payloads.as_slice() {
        reply.bytes(payload);
        reply.say(" ");
    }
}

fn read(reply: &mut Reply, read: &Result<Payloads, ReadStop>) {
    match read {
        Ok(all) => {
            payloads(reply, all);
            reply.say("end");
        }
        Err(ReadStop::BadFrame { frame, before }) => {
            payloads(reply, before);
            reply.say("bad ");
            reply.number(u64::from(*frame));
        }
        Err(ReadStop::NoMemory) => reply.say("no memory"),
        Err(ReadStop::DiskFault) => reply.say("disk fault"),
    }
}

/// The payloads that are read from the whole of the bytes, and how the reading ends: from `BYTES` or
/// `BYTES | FAILING`, where the calls of these numbers fail.
pub(crate) fn area(reply: &mut Reply, question: &str) {
    let (bytes, failing) = question.split_once(" | ").unwrap_or((question, ""));
    let mut disk = reply.disk(bytes, failing);
    read(reply, &whole_area(reply.alloc, &mut disk));
}

pub(crate) const AREAS: &str = "
area:  => end
area: #___ => end
area: _______ => end
area: #___1x => x end
area: #___1x#___2yz => x yz end
area: #___1x#___ => x end
area: #___1x!___1y => x end
area: #___2x => bad 0
area: #____x => bad 0
area: #$$$$x => bad 0
area: #___1x#___3yz => x bad 1
area: #___%_1___1_______51a => _1___1_______51a end
// a read fails
area: #___1x | 1 => disk fault
";

// 30 bytes of which none is zero.
const NOISE: &str = "nnnnnnnnnnnnnnnnnnnnnnnnnnnnnn";

// Lets so many groups wait in a log of 24 bytes, three at most: `ab`, `c` and `d`. A fourth one has no room.
fn wait(log: &mut Wal, groups: u8)
    requires { log.old ≡ record { area = 2; len = 24; written = 0; groups = [] } }
    ensures area { log.new.area ≡ 2 }
    ensures len { log.new.len ≡ 24 }
    ensures written { log.new.written ≡ 0 }
{
    match groups {
        0 => {}
        1 => log.append(b"ab", 3),
        2 => {
            log.append(b"ab", 3);
            log.append(b"c", 5);
        }
        _ => {
            log.append(b"ab", 3);
            log.append(b"c", 5);
            log.append(b"d", 5);
        }
    }
}

// A log of 24 bytes behind the first two, with so many groups that wait.
fn begun<D: Device>(alloc: Global, disk: &mut D, groups: u8) -> Option<Wal>
    requires { 26 ≤ (D.model disk.old).size }
    ensures ready { IfSome result (λ log. MayForce (D.model disk.new) log) }
{
    let Ok(()) = zero_area(disk, 2, 24) else {
        return None;
    };
    let Ok(mut log) = Wal::new(alloc, 2, 24) else {
        return None;
    };
    wait(&mut log, groups);
    Some(log)
}

// Lets one more group wait, `e`, where none does and it has room.
fn wait_again(log: &mut Wal) -> bool
    ensures area { log.new.area ≡ log.old.area }
    ensures len { log.new.len ≡ log.old.len }
    ensures written { log.new.written ≡ log.old.written }
{
    if log.pending() != 0 || log.room() == 0 {
        return false;
    }
    log.append(b"e", 7);
    true
}

// Whether a force succeeds.
fn forced<D: Device>(disk: &mut D, log: &mut Wal) -> bool
    requires { MayForce (D.model disk.old) log.old }
    ensures { IsTrue result → MayForce (D.model disk.new) log.new }
{
    log.force(disk).is_ok()
}

// Forces so often, or up to the first that fails.
fn force_often<D: Device>(disk: &mut D, log: &mut Wal, forces: u8)
    requires { MayForce (D.model disk.old) log.old }
{
    if forces > 0 && forced(disk, log) {
        force_often(disk, log, forces - 1);
    }
}

// Forces once, lets one more group wait, and forces so often, or up to the first that fails.
#[tactic(auto, using(crate::proofs::Waiting::still_may_force))]
fn force_again<D: Device>(disk: &mut D, log: &mut Wal, forces: u8)
    requires { MayForce (D.model disk.old) log.old }
{
    if forced(disk, log) && wait_again(log) {
        force_often(disk, log, forces);
    }
}

// How many groups wait at first, and whether they are forced before one more waits: from `GROUPS` or `GROUPS+1`.
fn groups_of(reply: &mut Reply, text: &str) -> (u8, bool) {
    let (groups, more) = text.split_once('+').unwrap_or((text, ""));
    reply.need(more.is_empty() || more == "1");
    (reply.read_byte(groups), more == "1")
}

// The log of so many groups after so many forces, or up to the first that fails. Where one more group waits, a force is
// before it.
fn forced_often<D: Device>(
    alloc: Global,
    disk: &mut D,
    groups: u8,
    is_again: bool,
    forces: u8,
) -> Option<Wal> {
    if disk.size() < 26 {
        return None;
    }
    let mut log = begun(alloc, disk, groups)?;
    if is_again {
        force_again(disk, &mut log, forces);
    } else {
        force_often(disk, &mut log, forces);
    }
    Some(log)
}

// The bytes that wait, those that are written, and the mark of the oldest group that waits, or 9.
fn say_log(reply: &mut Reply, log: &Wal) {
    reply.number(u64::from(log.pending()));
    reply.say(" ");
    reply.number(u64::from(log.written()));
    reply.say(" ");
    reply.number(u64::from(log.settled(9)));
}

/// The log, its room, the calls of the disk and its bytes: from `GROUPS FORCES`.
pub(crate) fn life(reply: &mut Reply, question: &str) {
    let (groups, forces) = reply.parts(question, " ");
    let (groups, is_again) = groups_of(reply, groups);
    let forces = reply.read_byte(forces);
    let mut disk = reply.disk(NOISE, "");
    let log = forced_often(reply.alloc, &mut disk, groups, is_again, forces);
    reply.need(log.is_some());
    if let Some(log) = &log {
        say_log(reply, log);
        reply.say(" ");
        reply.number(u64::from(log.room()));
    }
    reply.say(" ");
    reply.number(disk.calls());
    reply.say(" ");
    reply.bytes(disk.bytes());
}

// The log's area in an image of the disk, as a disk.
fn area_in(alloc: Global, disk: &MemDisk, before: u64, pick: Pick) -> Option<MemDisk> {
    let image = disk.image(before, pick).ok()??;
    let area = image.get(2..26)?.to_vec(alloc).ok()?;
    Some(MemDisk::new(alloc, area))
}

// What is read of the three images of a moment.
fn areas(reply: &mut Reply, disk: &MemDisk, before: u64) {
    for pick in PICKS {
        reply.say(", ");
        match area_in(reply.alloc, disk, before, pick) {
            Some(mut area) => read(reply, &whole_area(reply.alloc, &mut area)),
            None => reply.need(false),
        }
    }
}

/// The log after a force of the last groups, and what is read of the images of a moment: from `GROUPS | FAILING | MOMENT`.
pub(crate) fn force(reply: &mut Reply, question: &str) {
    let (groups, rest) = reply.parts(question, " | ");
    let (failing, before) = reply.parts(rest, " | ");
    let (groups, is_again) = groups_of(reply, groups);
    let before = reply.read(before);
    let mut disk = reply.disk(NOISE, failing);
    match forced_often(reply.alloc, &mut disk, groups, is_again, 1) {
        Some(log) => say_log(reply, &log),
        None => reply.need(false),
    }
    areas(reply, &disk, before);
}

// The area takes two calls, and a force of whatever waits four. Room is counted as if each group that waits were a frame.
pub(crate) const LIFE: &str = "
life: 0 0 => 0 0 9 19 2 nn________________________nnnn
life: 0 1 => 0 0 9 19 2 nn________________________nnnn
life: 1 0 => 2 0 3 12 2 nn________________________nnnn
life: 1 1 => 0 7 9 12 6 nn#___2ab_________________nnnn
life: 1 2 => 0 7 9 12 6 nn#___2ab_________________nnnn
life: 2 0 => 3 0 3 6 2 nn________________________nnnn
life: 2 1 => 0 8 9 11 6 nn#___3abc________________nnnn
life: 2 2 => 0 8 9 11 6 nn#___3abc________________nnnn
life: 2 3 => 0 8 9 11 6 nn#___3abc________________nnnn
life: 3 0 => 4 0 3 0 2 nn________________________nnnn
life: 3 1 => 0 9 9 10 6 nn#___4abcd_______________nnnn
life: 3 2 => 0 9 9 10 6 nn#___4abcd_______________nnnn
// one more group behind them is a frame of its own
life: 0+1 0 => 1 0 7 13 2 nn________________________nnnn
life: 0+1 1 => 0 6 9 13 6 nn#___1e__________________nnnn
life: 1+1 0 => 1 7 7 6 6 nn#___2ab_________________nnnn
life: 1+1 1 => 0 13 9 6 10 nn#___2ab#___1e___________nnnn
life: 1+1 2 => 0 13 9 6 10 nn#___2ab#___1e___________nnnn
life: 2+1 0 => 1 8 7 5 6 nn#___3abc________________nnnn
life: 2+1 1 => 0 14 9 5 10 nn#___3abc#___1e__________nnnn
life: 3+1 0 => 1 9 7 4 6 nn#___4abcd_______________nnnn
life: 3+1 1 => 0 15 9 4 10 nn#___4abcd#___1e_________nnnn
// a put of one record
frame:  => 16 0 16 n#___%_1___1_______51annnnnnnn
";

// Of the groups that are forced together all are there or none.
pub(crate) const FORCES: &str = "
// a force is stopped, of one group
force: 1 |  | 2 => 0 7 9, end, end, end
force: 1 |  | 3 => 0 7 9, end, end, end
force: 1 |  | 4 => 0 7 9, end, end, end
force: 1 |  | 5 => 0 7 9, end, ab end, ab end
force: 1 |  | 6 => 0 7 9, ab end, ab end, ab end
// of two
force: 2 |  | 2 => 0 8 9, end, end, end
force: 2 |  | 3 => 0 8 9, end, end, end
force: 2 |  | 4 => 0 8 9, end, end, end
force: 2 |  | 5 => 0 8 9, end, abc end, abc end
force: 2 |  | 6 => 0 8 9, abc end, abc end, abc end
// of three
force: 3 |  | 2 => 0 9 9, end, end, end
force: 3 |  | 3 => 0 9 9, end, end, end
force: 3 |  | 4 => 0 9 9, end, end, end
force: 3 |  | 5 => 0 9 9, end, abcd end, abcd end
force: 3 |  | 6 => 0 9 9, abcd end, abcd end, abcd end
// of one behind the frame of three
force: 3+1 |  | 6 => 0 15 9, abcd end, abcd end, abcd end
force: 3+1 |  | 7 => 0 15 9, abcd end, abcd end, abcd end
force: 3+1 |  | 8 => 0 15 9, abcd end, abcd end, abcd end
force: 3+1 |  | 9 => 0 15 9, abcd end, abcd e end, abcd e end
force: 3+1 |  | 10 => 0 15 9, abcd e end, abcd e end, abcd e end
// each call of a force fails, and all groups wait still: of one group
force: 1 | 2 | 3 => 2 0 3, end, end, end
force: 1 | 3 | 4 => 2 0 3, end, end, end
force: 1 | 4 | 5 => 2 0 3, end, end, ab end
force: 1 | 5 | 6 => 2 0 3, end, ab end, ab end
// of two
force: 2 | 2 | 3 => 3 0 3, end, end, end
force: 2 | 3 | 4 => 3 0 3, end, end, end
force: 2 | 4 | 5 => 3 0 3, end, end, abc end
force: 2 | 5 | 6 => 3 0 3, end, abc end, abc end
// of three
force: 3 | 2 | 3 => 4 0 3, end, end, end
force: 3 | 3 | 4 => 4 0 3, end, end, end
force: 3 | 4 | 5 => 4 0 3, end, end, abcd end
force: 3 | 5 | 6 => 4 0 3, end, abcd end, abcd end
// of one behind the frame of three
force: 3+1 | 6 | 7 => 1 9 7, abcd end, abcd end, abcd end
force: 3+1 | 7 | 8 => 1 9 7, abcd end, abcd end, abcd end
force: 3+1 | 8 | 9 => 1 9 7, abcd end, abcd end, abcd e end
force: 3+1 | 9 | 10 => 1 9 7, abcd end, abcd e end, abcd e end
";

// The put of the point 5 with the body `a` into page 1, as a group of the log has it.
const PUT: [u8; 16] = [0, 1, 0, 0, 0, 1, 0, 0, 0, 0, 0, 0, 0, 5, 1, b'a'];

// Forces a put's group into an area of exactly its frame's length, and tells the room before, between and behind.
fn put<D: Device>(alloc: Global, disk: &mut D) -> Option<[u32; 3]>
    requires { 22 ≤ (D.model disk.old).size }
{
    let Ok(()) = zero_area(disk, 1, 21) else {
        return None;
    };
    let Ok(mut log) = Wal::new(alloc, 1, 21) else {
        return None;
    };
    let before = log.room();
    log.append(&PUT, 0);
    let between = log.room();
    if log.force(disk).is_err() {
        return None;
    }
    log.move_to(0);
    Some([before, between, log.room()])
}

fn put_where_it_fits<D: Device>(alloc: Global, disk: &mut D) -> Option<[u32; 3]> {
    if disk.size() < 22 {
        return None;
    }
    put(alloc, disk)
}

/// The room before, between and behind, and the bytes of the disk.
pub(crate) fn frame(reply: &mut Reply) {
    let mut disk = reply.disk(NOISE, "");
    let rooms = put_where_it_fits(reply.alloc, &mut disk);
    reply.need(rooms.is_some());
    for room in rooms.unwrap_or([0; 3]) {
        reply.number(u64::from(room));
        reply.say(" ");
    }
    reply.bytes(disk.bytes());
}
