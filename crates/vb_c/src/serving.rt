//! Notices over the memory of a running guest.

ghost use Rattle.std.specs.Prelude.{◌≡◌, ◌+◌, ◌≤◌, Some};
ghost use Rattle.vb_monitor.specs.declared.room.TheConstants.{MAX_BYTES};
ghost use Rattle.vb_monitor.specs.Machine.{Fits};
ghost use Rattle.vb_c.specs.Codes.{kind_of_code};
ghost use Rattle.vb_monitor.specs.Steps.{phase_of, step_of, says_yes};
ghost use Rattle.vb_c.specs.Notices.{HasEnded, notice_of, RechecksFor};
ghost use Rattle.vb_monitor.specs.Notices.{Serves};
ghost use Rattle.vb_c.specs.Serving.{HandsOver, Begins, BeginsFor, GivesHeldFor, GoesOnBy};
ghost use Rattle.vb_c.specs.Serving.{GoesOn, LeavesHints};
ghost use Rattle.vb_core.specs.Settings.{longest_request};

use crate::kinds::kind_of_code;
use crate::notice::VbNotice;
use vb_core::Kind;
use vb_monitor::{
    BAD_ARGUMENT, Balloon, Budget, NO_QUEUE, NOTHING, NoticeRoom, Region, STALE, Snapshot, at_once,
};

/// Hands a notice over, with all that is to be done before it waits; what it came to is noted, once
/// it has ended.
#[inline(always)]
fn hand_over(
    notice: &mut VbNotice,
    balloon: &mut Balloon,
    regions: &[Region],
    kind: Kind,
    room: &mut NoticeRoom,
) -> u32
    requires { Fits (phase_of notice.old.step) }
    ensures hands { HandsOver (record { kind = kind; step = step_of notice.old.step }) regions.now
        room.new.copied balloon.old balloon.new room.new.cuts notice.new }
    ensures stays { room.new.copied ≡ room.old.copied }
    ensures what { result ≡ notice.new.what }
{
    let asked = at_once(
        &mut notice.step,
        &mut balloon.device,
        regions,
        kind,
        room,
        &mut notice.orders,
    );
    if let Some(outcome) = notice.step.outcome() {
        balloon.note(kind, &outcome);
    }
    notice.show(asked, kind);
    notice.left = Snapshot::of(&balloon.device, kind);
    notice.what
}

/// Hands a notice over that has ended before anything was done.
fn refuse(shown: &mut VbNotice, code: u32) -> u32
    ensures ended { HasEnded shown.new code }
    ensures what { result ≡ shown.new.what }
{
    shown.end_with(code);
    shown.what
}

/// The driver kicked the queue of this kind, or may have.
#[unsafe(no_mangle)]
pub extern "C" fn vb_begin(
    notice: &mut VbNotice,
    balloon: &mut Balloon,
    regions: &[Region],
    room: &mut NoticeRoom,
    kind: u32,
    chains: u32,
    pages: u32,
    keeps: u32,
) -> u32
    ensures begins { BeginsFor (kind_of_code kind) regions.now
        (record {
          chains = chains;
          pages = pages;
          keeps = says_yes keeps;
          longest = longest_request balloon.old.device.settings;
        }) balloon.old balloon.new room.old room.new
        notice.new }
    ensures what { result ≡ notice.new.what }
{
    match kind_of_code(kind) {
        None => refuse(notice, NO_QUEUE),
        Some(queue) => {
            if !balloon.may_look(queue) {
                return refuse(notice, NOTHING);
            }
            let budget = Budget {
                chains,
                pages,
                keeps: keeps != 0,
                longest: balloon.device.settings.longest_request(),
            };
            notice
                .step
                .begin(&mut balloon.device, regions, queue, budget);
            hand_over(notice, balloon, regions, queue, room)
        }
    }
}

/// A chain that is held is given back.
#[unsafe(no_mangle)]
pub extern "C" fn vb_give_held(
    notice: &mut VbNotice,
    balloon: &mut Balloon,
    regions: &[Region],
    room: &mut NoticeRoom,
    kind: u32,
) -> u32
    ensures gives { GivesHeldFor (kind_of_code kind) regions.now balloon.old balloon.new room.old
        room.new notice.new }
    ensures what { result ≡ notice.new.what }
{
    match kind_of_code(kind) {
        None => refuse(notice, NO_QUEUE),
        Some(queue) => match balloon.held_chain(queue) {
            None => refuse(notice, NOTHING),
            Some(held) => {
                notice
                    .step
                    .give_held(&mut balloon.device, regions, queue, held);
                hand_over(notice, balloon, regions, queue, room)
            }
        },
    }
}

/// A notice goes on with this answer, and is handed over.
#[inline(always)]
fn go_on(
    notice: &mut VbNotice,
    balloon: &mut Balloon,
    regions: &[Region],
    room: &mut NoticeRoom,
    kind: Kind,
    answer: u16,
) -> u32
    requires { Fits (phase_of notice.old.step) }
    ensures goes { GoesOn (record { kind = kind; step = step_of notice.old.step }) regions.now
        answer balloon.old balloon.new room.old room.new notice.new }
    ensures what { result ≡ notice.new.what }
{
    let device = &mut balloon.device;
    notice
        .step
        .go_on(device, regions, kind, answer, &mut room.copied);
    hand_over(notice, balloon, regions, kind, room)
}

/// A notice leaves the hints that it would discard next, and is handed over.
fn leave_hints(
    notice: &mut VbNotice,
    balloon: &mut Balloon,
    regions: &[Region],
    room: &mut NoticeRoom,
    kind: Kind,
) -> u32
    requires { Fits (phase_of notice.old.step) }
    ensures leaves { LeavesHints (record { kind = kind; step = step_of notice.old.step })
        regions.now balloon.old balloon.new room.old room.new notice.new }
    ensures what { result ≡ notice.new.what }
{
    let device = &mut balloon.device;
    notice.step.leave_parts(device, regions, kind, &room.copied);
    hand_over(notice, balloon, regions, kind, room)
}

/// What is to be done next, once that was done which was to be done; nothing where the device isn't
/// as the notice left it.
#[unsafe(no_mangle)]
pub extern "C" fn vb_go_on(
    notice: &mut VbNotice,
    balloon: &mut Balloon,
    regions: &[Region],
    room: &mut NoticeRoom,
    answer: u16,
) -> u32
    ensures goes { GoesOnBy (notice_of notice.old) notice.old.left regions.now answer balloon.old
        balloon.new room.old room.new notice.new }
    ensures what { result ≡ notice.new.what }
{
    match notice.going() {
        None => refuse(notice, BAD_ARGUMENT),
        Some(kind) => {
            if !notice.left.is_current(&balloon.device, kind) {
                return refuse(notice, STALE);
            }
            if notice.leaves_hints(&balloon.device, kind) {
                return leave_hints(notice, balloon, regions, room, kind);
            }
            go_on(notice, balloon, regions, room, kind, answer)
        }
    }
}

/// What is still to be done of what a notice says, after a call on its balloon.
#[unsafe(no_mangle)]
pub extern "C" fn vb_recheck(notice: &VbNotice, balloon: &Balloon) -> u32
    ensures { RechecksFor (kind_of_code notice.now.kind) notice.now balloon.now.device result }
{
    match kind_of_code(notice.kind) {
        None => 0,
        Some(kind) => notice.recheck(&balloon.device, kind),
    }
}
