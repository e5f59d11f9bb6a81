//! The plan that the lines of a script for guests on threads make together.

ghost use Rattle.std.specs.Option.{option_map};
ghost use Rattle.std.specs.List.{list_all, range_with_len};
ghost use Rattle.std.specs.Prelude.{◌≡◌, ◌≤◌, ◌∷◌, ◌++◌, [], IfOk, IsTrue, OnOk, length, map};
ghost use Rattle.std.specs.Prelude.{slice_get, vec_len};
ghost use Rattle.vb_script.specs.Plans.{calls_in, guest_plan, guest_with, guests_with};
ghost use Rattle.vb_script.specs.Plans.{has_few, has_cpu, is_plan, is_there, plan_of, planned_by};
ghost use Rattle.vb_script.specs.Plans.{plug_in, plugs_in, rounds_in, script_by};
ghost use Rattle.vb_script.specs.Scripts.{told_by};

use crate::lines::Pace;
use crate::script::{Reading, ThreadsGuest, ThreadsScript};
use crate::threads::ThreadsLine;
use std::alloc::{AllocError, Global};
use vb_model::Call;
use vb_virtio::limits::MAX_PROCESSORS;

/// A guest's configuration, as it is written.
#[derive(Clone, Copy)]
pub struct Plugged {
    pub pages: u32,
    pub queue_size: u32,
    pub processors: u32,
}

/// The plan that such lines make together, if they make one.
pub fn plan(alloc: Global, read: &Reading<ThreadsLine>) -> Result<Option<ThreadsScript>, AllocError>
    ensures { IfOk result (λ plan. plan_of (told_by read.now) ≡ option_map planned_by plan) }
{
    let lines = read.items.as_slice();
    let spares = read.spares.as_slice();
    let plugs = plugs_in(alloc, lines)?;
    let plugs = plugs.as_slice();
    if !is_plan(spares, plugs, lines) {
        return Ok(None);
    }
    let guests = guests_with(alloc, spares, plugs, lines)?;
    let (floor, rounds) = rounds_in(lines);
    Ok(Some(ThreadsScript {
        frames: read.frames,
        guests,
        floor,
        rounds,
    }))
}

/// The guests that are plugged in, in order.
fn plugs_in(alloc: Global, lines: &[ThreadsLine]) -> Result<Vec<Plugged>, AllocError>
    ensures { IfOk result (λ plugs. plugs.items ≡ plugs_in lines.now) }
{
    let mut plugs = Vec::new(alloc);
    for line in lines {
        if let Some(plug) = plug_in(line) {
            plugs.push(plug)?;
        }
    }
    Ok(plugs)
}

/// The guest that a line plugs in, if it does.
fn plug_in(line: &ThreadsLine) -> Option<Plugged>
    ensures { result ≡ plug_in line.now }
{
    match line {
        ThreadsLine::Plug {
            pages,
            queue_size,
            processors,
        } => Some(Plugged {
            pages: *pages,
            queue_size: *queue_size,
            processors: *processors,
        }),
        _ => None,
    }
}

/// Whether there is a guest, a spare device for each, and a processor of its guest's for each call.
fn is_plan(spares: &[Pace], plugs: &[Plugged], lines: &[ThreadsLine]) -> bool
    ensures { result ≡ is_plan spares.now plugs.now (calls_in lines.now) }
{
    !plugs.is_empty() && plugs.len() <= spares.len() && have_few(plugs) && are_there(plugs, lines)
}

/// Whether no guest has too many processors.
fn have_few(plugs: &[Plugged]) -> bool
    ensures { result ≡ list_all has_few plugs.now }
{
    for plug in plugs {
        if plug.processors > MAX_PROCESSORS {
            return false;
        }
    }
    true
}

/// Whether the guest and the processor of each call are there.
fn are_there(plugs: &[Plugged], lines: &[ThreadsLine]) -> bool
    ensures { result ≡ list_all (is_there plugs.now) (calls_in lines.now) }
{
    let mut cpu = 0;
    for line in lines {
        match line {
            ThreadsLine::Cpu(chosen) => cpu = *chosen,
            ThreadsLine::Call { guest, .. } => {
                if !is_there(plugs, *guest, cpu) {
                    return false;
                }
            }
            _ => {}
        }
    }
    true
}

/// Whether there is a guest of this number, and a processor of that of the guest's.
fn is_there(plugs: &[Plugged], guest: u32, cpu: u32) -> bool
    ensures { result ≡ has_cpu cpu (slice_get plugs.now guest) }
{
    match plugs.get(guest as usize) {
        None => false,
        Some(plug) => cpu < plug.processors,
    }
}

/// The rounds, or none.
fn rounds_in(lines: &[ThreadsLine]) -> (u32, u32)
    ensures { result ≡ rounds_in lines.now }
{
    for line in lines {
        if let ThreadsLine::Rounds { floor, count } = line {
            return (*floor, *count);
        }
    }
    (0, 0)
}

/// The guests, each with the next spare device.
fn guests_with(
    alloc: Global,
    spares: &[Pace],
    plugs: &[Plugged],
    lines: &[ThreadsLine],
) -> Result<Vec<ThreadsGuest>, AllocError>
    requires enough { length plugs.now ≤ length spares.now }
    requires few { IsTrue (list_all has_few plugs.now) }
    ensures guests { IfOk result (λ guests. map guest_plan guests.items
        ≡ guests_with 0 spares.now plugs.now (calls_in lines.now)) }
    ensures count { IfOk result (λ guests. vec_len guests ≡ length plugs.now) }
{
    let mut guests = Vec::new(alloc);
    for index in 0..plugs.len() {
        guests.push(guest_with(alloc, index, spares[index], plugs[index], lines)?)?;
    }
    Ok(guests)
}

/// A guest of this number with its device and its configuration.
fn guest_with(
    alloc: Global,
    guest: usize,
    pace: Pace,
    plug: Plugged,
    lines: &[ThreadsLine],
) -> Result<ThreadsGuest, AllocError>
    requires { plug.processors ≤ 4 }
    ensures { IfOk result
        (λ plan. guest_plan plan ≡ guest_with guest pace plug (calls_in lines.now)) }
{
    Ok(ThreadsGuest {
        pace,
        pages: plug.pages,
        queue_size: plug.queue_size,
        processors: plug.processors,
        scripts: scripts_by(alloc, guest, plug.processors, lines)?,
    })
}

/// The scripts of a guest's processors, of which it has `processors`. Goes over the lines once for
/// each.
fn scripts_by(
    alloc: Global,
    guest: usize,
    processors: u32,
    lines: &[ThreadsLine],
) -> Result<Vec<Vec<Call>>, AllocError>
    ensures scripts { IfOk result (λ scripts. map (λ script. script.items) scripts.items
        ≡ map (λ cpu. script_by guest cpu (calls_in lines.now)) (range_with_len 0 processors)) }
    ensures count { IfOk result (λ scripts. vec_len scripts ≡ processors) }
{
    let mut scripts = Vec::new(alloc);
    for cpu in 0..processors {
        scripts.push(script_by(alloc, guest, cpu, lines)?)?;
    }
    Ok(scripts)
}

/// The calls that a guest's processor makes, in order.
fn script_by(
    alloc: Global,
    guest: usize,
    cpu: u32,
    lines: &[ThreadsLine],
) -> Result<Vec<Call>, AllocError>
    ensures { IfOk result (λ script. script.items ≡ script_by guest cpu (calls_in lines.now)) }
{
    let mut script = Vec::new(alloc);
    let mut chosen = 0;
    for line in lines {
        match line {
            ThreadsLine::Cpu(next) => chosen = *next,
            ThreadsLine::Call { guest: on, call } => {
                if *on as usize == guest && chosen == cpu {
                    add_copy(alloc, &mut script, call)?;
                }
            }
            _ => {}
        }
    }
    Ok(script)
}

/// Adds a call to a script.
fn add_copy(alloc: Global, script: &mut Vec<Call>, call: &Call) -> Result<(), AllocError>
    ensures { OnOk result (script.new.items ≡ script.old.items ++ call.now ∷ []) }
{
    script.push(call.copy(alloc)?)?;
    Ok(())
}
