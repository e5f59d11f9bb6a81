//! A host with one guest, whose device leases its frames from a table that guests may share: all
//! calls on it are answered as on a host that has its frames by itself.

ghost use Rattle.std.specs.Prelude.{◌≡◌, ◌<◌, ◌≤◌, ⊤, [], true, IfOk, IfSome, MatchOption, length};
ghost use Rattle.std.specs.Prelude.{vec_len};
ghost use Rattle.vb_virtio.specs.declared.limits.TheConstants.{MAX_FRAMES};
ghost use Rattle.vb_model.specs.Guest.{Guest};
ghost use Rattle.vb_virtio.specs.Limits.{is_config};
ghost use Rattle.vb_slot.specs.Spare.{IsNew};

use std::alloc::{AllocError, Global};
use std::io::Write;
use vb_command::{Play, ProgramFault, write_lines};
use vb_device::{Device, ImmediateDevice, PacedDevice};
use vb_model::{Call, Event, Query, Reply};
use vb_ram::Config;
use vb_script::{Pace, Script};
use vb_shared::{FramePass, Leased, SharedFrames};
use vb_slot::{GuestSlot, LoneSlot};
use vb_virtio::Refusal;

/// A table of frames, and at most one guest, which has a pass over it.
#[derive(Drop)]
struct Table {
    frames: SharedFrames,
    /// How many frames there are.
    count: u32,
    guest: Option<LoneSlot>,
}

impl Table {
    /// What a call on the guest is answered.
    fn call(&mut self, alloc: Global, call: &Call) -> Reply
        requires { MatchOption self.old.guest ⊤
            (λ slot. (g : Guest) × ⟦<LoneSlot as GuestSlot>⟧.stands slot g) }
        ensures { MatchOption self.new.guest ⊤
            (λ slot. (g : Guest) × ⟦<LoneSlot as GuestSlot>⟧.stands slot g) }
    {
        match &mut self.guest {
            Some(slot) => slot.call(alloc, call),
            None => Reply::Refused(Refusal::NoGuest),
        }
    }

    /// What a question about the guest is answered.
    fn query(&self, alloc: Global, query: &Query) -> Reply
        requires { MatchOption self.now.guest ⊤
            (λ slot. (g : Guest) × ⟦<LoneSlot as GuestSlot>⟧.stands slot g) }
    {
        match &self.guest {
            Some(slot) => slot.query(alloc, query),
            None => Reply::Refused(Refusal::NoGuest),
        }
    }

    /// How many frames are held in the table, and how many aren't.
    fn count_frames(&self) -> Reply {
        let used = self.frames.census();
        Reply::Frames {
            used,
            free: self.count.saturating_sub(used),
        }
    }

    /// What an event is answered.
    fn answer(&mut self, alloc: Global, event: &Event) -> Reply
        requires { MatchOption self.old.guest ⊤
            (λ slot. (g : Guest) × ⟦<LoneSlot as GuestSlot>⟧.stands slot g) }
        ensures { MatchOption self.new.guest ⊤
            (λ slot. (g : Guest) × ⟦<LoneSlot as GuestSlot>⟧.stands slot g) }
    {
        match event {
            Event::Guest { call, .. } => self.call(alloc, call),
            Event::Query { query, .. } => self.query(alloc, query),
            Event::Frames => self.count_frames(),
            Event::Unplug { .. } => {
                self.guest = None;
                Reply::Done
            }
            _ => Reply::Plugged { guest: 0 },
        }
    }

    /// What events are answered, one after the other.
    fn answer_each(&mut self, alloc: Global, events: &[Event]) -> Result<Vec<Reply>, AllocError>
        requires { MatchOption self.old.guest ⊤
            (λ slot. (g : Guest) × ⟦<LoneSlot as GuestSlot>⟧.stands slot g) }
        ensures { IfOk result (λ replies. vec_len replies ≡ length events.now) }
    {
        let mut replies = Vec::with_capacity(alloc, events.len())?;
        for event in events {
            replies.push(self.answer(alloc, event))?;
        }
        Ok(replies)
    }
}

/// The sizes that the first event plugs a guest in with.
fn sizes_of(events: &[Event]) -> Option<Config>
    ensures { IfSome result
        (λ sizes. is_config sizes.pages sizes.queue_size sizes.processors ≡ true) }
{
    match events.first() {
        Some(Event::Plug { size }) => {
            let sizes = Config::new(size.pages, size.queue_size, size.processors)?;
            Some(sizes)
        }
        _ => None,
    }
}

/// Plugs the guest in on this device, lets all events happen, and gives what each is answered.
fn play_on(
    alloc: Global,
    frames: SharedFrames,
    count: u32,
    device: Box<dyn Device + Send>,
    events: &[Event],
) -> Result<Vec<Reply>, AllocError>
    requires { IsNew (mem device) (part device) }
    ensures { IfOk result (λ replies. vec_len replies ≡ length events.now) }
{
    let Some(sizes) = sizes_of(events) else {
        return Err(AllocError);
    };
    let Ok(slot) = LoneSlot::new(alloc, device, sizes) else {
        return Err(AllocError);
    };
    let mut table = Table {
        frames,
        count,
        guest: Some(slot),
    };
    table.answer_each(alloc, events)
}

/// A host with one guest, whose device has a pass over a table of the host's frames.
#[derive(Drop)]
pub struct Leasing;

impl Play for Leasing {
    ghost played = { λ said replies. ⊤ };

    fn play<W: Write>(
        &mut self,
        alloc: Global,
        script: &Script,
        out: &mut W,
    ) -> Result<(), ProgramFault> {
        let replies = answer_all(alloc, script)?;
        write_lines(out, &replies)
    }
}

/// A table of `frames` frames, and a pass over it that holds nothing.
fn open_one(alloc: Global, frames: u32) -> Result<(SharedFrames, FramePass), AllocError>
    requires { (0 < frames) × (frames ≤ MAX_FRAMES) }
    ensures { IfOk result (λ opened. opened.1.held ≡ []) }
{
    let (frames, mut passes) = SharedFrames::open(alloc, frames, 1)?;
    match passes.pop() {
        Some(mut pass) => {
            // A new pass holds nothing; with this call that is known here.
            pass.give_back_all();
            Ok((frames, pass))
        }
        None => Err(AllocError),
    }
}

/// What a script's events are answered on a host with one guest, whose device leases its frames.
fn answer_all(alloc: Global, script: &Script) -> Result<Vec<Reply>, AllocError>
    ensures { IfOk result (λ replies. vec_len replies ≡ vec_len script.now.events) }
{
    let (frames, pass) = open_one(alloc, script.frames)?;
    match script.spares.first() {
        Some(Pace::Paced) => {
            let device = Leased::new(PacedDevice::new(alloc), pass);
            let device = Box::new(alloc, device)?;
            play_on(alloc, frames, script.frames, device, &script.events)
        }
        _ => {
            let device = Leased::new(ImmediateDevice::new(alloc), pass);
            let device = Box::new(alloc, device)?;
            play_on(alloc, frames, script.frames, device, &script.events)
        }
    }
}
