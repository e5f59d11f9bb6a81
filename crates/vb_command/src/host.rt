//! The host that a script's events happen on.

ghost use Rattle.std.specs.Prelude.{◌≡◌, ◌<◌, ◌≤◌, All, IfErr, List, OnOk, length, map};
ghost use Rattle.std.specs.Io.KnownBytes.{Appends, Keeps};
ghost use Rattle.std.specs.List.{flat_map};
ghost use Rattle.vb_virtio.specs.declared.limits.TheConstants.{MAX_FRAMES};
ghost use Rattle.vb_model.specs.declared.replies.Reply.{Reply as AnyReply};
ghost use Rattle.vb_model.specs.Safe.{IsSafeRun};
ghost use Rattle.vb_model.specs.World.{World as Model, made};
ghost use Rattle.vb_reply.specs.Replies.{line_of};
ghost use Rattle.vb_script.specs.Lines.{is_paced};
ghost use Rattle.vb_command.specs.Plays.{IsPlayFault, RunsSafely};
ghost use Rattle.vb_slot.specs.Spare.{IsSpare};

use crate::fault::ProgramFault;
use crate::play::Play;
use std::alloc::Global;
use std::io::Write;
use vb_device::{Device, ImmediateDevice, PacedDevice};
use vb_model::Event;
use vb_reply::{Held, put_reply, release};
use vb_script::{Pace, Script};
use vb_served::NoticedDevice;
use vb_world::{World, add_spare};

/// A host of frames, with guests that have balloon devices.
#[derive(Drop)]
pub struct Host;

impl Play for Host {
    ghost played = { RunsSafely };

    fn play<W: Write>(
        &mut self,
        alloc: Global,
        script: &Script,
        out: &mut W,
    ) -> Result<(), ProgramFault> {
        play_events(alloc, script.frames, &script.spares, &script.events, out)
    }
}

/// Makes a host of this many frames, 1 to `MAX_FRAMES`, with spare devices of these paces, lets
/// events happen, and writes the line of what each is answered to `out`, in order: the replies are
/// those of a run of the definitions, each state of which is safe. Fails on an allocation failure
/// before the first event, with nothing written, or where a write does; then no event after it
/// happens.
pub fn play_events<W: Write>(
    alloc: Global,
    frames: u32,
    paces: &[Pace],
    events: &[Event],
    out: &mut W,
) -> Result<(), ProgramFault>
    requires some { 1 ≤ frames }
    requires few { frames ≤ MAX_FRAMES }
    ensures ok { OnOk result ((replies : List AnyReply)
        × ((last : Model)
        × IsSafeRun (made frames (map is_paced paces.now)) events.now replies last)
        × (length replies ≡ length events.now)
        × Appends (W.contents out.old) (W.contents out.new) (flat_map line_of replies)) }
    ensures err { IfErr result (λ fault.
        IsPlayFault fault (Keeps (W.contents out.old) (W.contents out.new))) }
{
    let mut spares: Vec<Box<dyn Device + Send>> = Vec::with_capacity(alloc, paces.len())?;
    for pace in paces {
        match pace {
            Pace::Immediate => {
                let device = Box::new(alloc, ImmediateDevice::new(alloc))?;
                add_spare(&mut spares, device)?;
            }
            Pace::Paced => {
                let device = Box::new(alloc, PacedDevice::new(alloc))?;
                add_spare(&mut spares, device)?;
            }
            Pace::Monitor => {
                let device = Box::new(alloc, NoticedDevice::new(alloc))?;
                add_spare(&mut spares, device)?;
            }
        }
    }
    run_on(alloc, frames, spares, events, out)
}

/// Makes a host of this many frames with these spare devices, lets events happen, one after the
/// other, and writes the line of what each is answered to `out`, many at once. No memory is taken
/// for the lines. Fails on an allocation failure before the first event, with nothing written, or
/// where a write does; then no event after it happens.
fn run_on<W: Write>(
    alloc: Global,
    frames: u32,
    spares: Vec<Box<dyn Device + Send>>,
    events: &[Event],
    out: &mut W,
) -> Result<(), ProgramFault>
    requires some { 0 < frames }
    requires few { frames ≤ MAX_FRAMES }
    requires spares { All (λ d. IsSpare (mem d) (part d)) spares.items }
    ensures ok { OnOk result ((replies : List AnyReply)
        × ((last : Model)
        × IsSafeRun (made frames (map (λ d. (part d).paced) spares.items)) events.now replies last)
        × (length replies ≡ length events.now)
        × Appends (W.contents out.old) (W.contents out.new) (flat_map line_of replies)) }
    ensures err { IfErr result (λ fault.
        IsPlayFault fault (Keeps (W.contents out.old) (W.contents out.new))) }
{
    let mut world = World::new(alloc, frames, spares)?;
    let mut held = Held::new();
    for event in events {
        let reply = world.step(alloc, event);
        put_reply(out, &mut held, &reply)?;
    }
    release(out, &mut held)?;
    Ok(())
}
