//! Scripts: a host, its spare devices, and what happens.

ghost use Rattle.std.specs.Prelude.{◌≡◌, ◌≤◌, vec_capacity, vec_len};
ghost use Rattle.vb_virtio.specs.declared.limits.TheConstants.{MAX_FRAMES};
ghost use Rattle.vb_script.specs.declared.script.TheConstants.{MAX_SPARES};

use crate::lines::Pace;
use vb_model::{Call, Event};

/// Spare devices that a script may bring.
pub const MAX_SPARES: usize = 64;

/// What a script says: the first line the host's frames, the next ones its spare devices, all
/// others what happens. Any such script can be run: its numbers are within their bounds.
#[derive(Drop)]
pub struct Script {
    /// Frames of the host, from 1 to `MAX_FRAMES` of `vb_virtio`.
    pub frames: u32,
    /// The spare devices, at most `MAX_SPARES`, in the order in which plugs take them.
    pub spares: Vec<Pace>,
    /// What happens, in order.
    pub events: Vec<Event>,
    pub ghost some_frames: { 1 ≤ frames },
    pub ghost frames_in_bound: { frames ≤ MAX_FRAMES },
    pub ghost spares_in_bound: { vec_len spares ≤ MAX_SPARES },
    pub ghost room_for_spares: { MAX_SPARES ≤ vec_capacity spares },
}

/// What a text says, as far as it was read.
#[derive(Drop)]
pub struct Reading<T> {
    /// Frames of the host, from 1 to `MAX_FRAMES` of `vb_virtio`.
    pub frames: u32,
    /// The spare devices, at most `MAX_SPARES`, in order.
    pub spares: Vec<Pace>,
    /// What the lines after them say, in order.
    pub items: Vec<T>,
    pub ghost some_frames: { 1 ≤ frames },
    pub ghost frames_in_bound: { frames ≤ MAX_FRAMES },
    pub ghost spares_in_bound: { vec_len spares ≤ MAX_SPARES },
    pub ghost room_for_spares: { MAX_SPARES ≤ vec_capacity spares },
}

/// What a script for guests on threads says: a plan, which may be refused when it is run: what a
/// guest's configuration may be, how many guests there may be and which processor a call may name
/// is for the runner to say.
#[derive(Drop)]
pub struct ThreadsScript {
    /// Frames of the host, from 1 to `MAX_FRAMES` of `vb_virtio`.
    pub frames: u32,
    /// The guests in the order of their plugs, from 1 to 64 of them. A guest's number is its place
    /// here.
    pub guests: Vec<ThreadsGuest>,
    /// Pages of free memory that each guest keeps when targets are set. Any number.
    pub floor: u32,
    /// How often targets are set: 0 where the script has no line for that. Any number.
    pub rounds: u32,
    pub ghost some_frames: { 1 ≤ frames },
    pub ghost frames_in_bound: { frames ≤ MAX_FRAMES },
    pub ghost some_guests: { 1 ≤ vec_len guests },
    pub ghost guests_in_bound: { vec_len guests ≤ MAX_SPARES },
}

/// A guest of such a script. Its configuration is as it was written, except for its processors.
#[derive(Drop)]
pub struct ThreadsGuest {
    /// The pace of its device, which is the script's spare device of the guest's number.
    pub pace: Pace,
    /// Pages of its memory. Any number.
    pub pages: u32,
    /// Descriptors of each of its queues. Any number.
    pub queue_size: u32,
    /// Its processors, at most 4.
    pub processors: u32,
    /// The calls that each processor makes on this guest, in order, a list for each processor by
    /// its number. A call is as it was written: it may name another processor.
    pub scripts: Vec<Vec<Call>>,
    pub ghost few_processors: { processors ≤ 4 },
    pub ghost script_each: { vec_len scripts ≡ processors },
}
