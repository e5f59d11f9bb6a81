//! Frames are taken from pages: they are loose until they are handed back.

ghost use Rattle.std.specs.Prelude.{◌≡◌, ◌<◌, ◌≤◌, ◌+◌, ◌++◌, is_some, false, None, Some, length};
ghost use Rattle.std.specs.Prelude.{replicate, vec_capacity, count_by};
ghost use Rattle.std.specs.Option.{option_to_list};
ghost use Rattle.std.specs.List.{range_with_len};
ghost use Rattle.vb_virtio.specs.declared.layout.TheConstants.{DEFLATE_QUEUE};
ghost use Rattle.vb_virtio.specs.Tests.{one_if};
ghost use Rattle.vb_ram.specs.Pages.{frame_at, number_of, Discarded};
ghost use Rattle.vb_device.specs.Base.{numbers_of_frames};
ghost use Rattle.vb_device.specs.BaseCalls.{with_lost};
ghost use Rattle.vb_request.specs.Request.{each_once};
ghost use Rattle.vb_device.specs.Calls.{without_frames};
ghost use Rattle.vb_device.specs.Discards.{discarded, frames_behind};

use crate::taken::TakenRequest;
use vb_ram::{Frame, GuestBytes, Ram};
use vb_request::NamedRun;
use vb_virtio::layout::DEFLATE_QUEUE;

/// Puts a frame, if there is one, after the loose ones.
fn put_loose(loose: &mut Vec<Frame>, frame: Option<Frame>)
    requires { length loose.old.items + one_if (is_some frame) ≤ vec_capacity loose.old }
    ensures numbers { numbers_of_frames loose.new.items ≡ numbers_of_frames loose.old.items ++
        option_to_list (number_of frame) }
    ensures count { length loose.new.items ≡ length loose.old.items + one_if (is_some frame) }
    ensures capacity { vec_capacity loose.new ≡ vec_capacity loose.old }
{
    let _loose = loose.as_slice();
    match frame {
        Some(frame) => loose.push_reserved(frame),
        None => {}
    }
}

/// Takes the frame of a page away, which is loose now; says whether there was one.
pub fn discard_page(ram: &mut Ram, loose: &mut Vec<Frame>, page: u32) -> bool
    requires room { length loose.old.items + count_by is_some ram.old ≤ vec_capacity loose.old }
    ensures had { result ≡ is_some (frame_at ram.old page) }
    ensures after { Discarded ram.old ram.new page }
    ensures numbers { numbers_of_frames loose.new.items ≡ numbers_of_frames loose.old.items ++
        option_to_list (frame_at ram.old page) }
    ensures sum { length loose.new.items + count_by is_some ram.new ≡
        length loose.old.items + count_by is_some ram.old }
    ensures capacity { vec_capacity loose.new ≡ vec_capacity loose.old }
{
    // A page without a frame is left alone: a report names thousands of them.
    if ram.backing(page).is_none() {
        return false;
    }
    let frame = ram.discard(page);
    let had = frame.is_some();
    put_loose(loose, frame);
    had
}

/// Takes the frames of a request's pages away; those that there were are loose now, in the pages'
/// order.
fn discard_all(ram: &mut Ram, loose: &mut Vec<Frame>, request: &TakenRequest)
    requires room { length loose.old.items + count_by is_some ram.old ≤ vec_capacity loose.old }
    ensures mem { ram.new ≡ discarded request.now.pages ram.old }
    ensures loose { numbers_of_frames loose.new.items ≡ numbers_of_frames loose.old.items ++
        frames_behind ram.old (each_once request.now.pages) }
    ensures capacity { vec_capacity loose.new ≡ vec_capacity loose.old }
{
    let mut run = NamedRun::NONE;
    for k in 0..request.count() {
        discard_page(ram, loose, request.page_in(k, &mut run));
    }
}

/// Takes the frames of all pages away; those that there were are loose now, in the pages' order.
pub(crate) fn discard_memory(ram: &mut Ram, loose: &mut Vec<Frame>)
    requires room { length loose.old.items + count_by is_some ram.old ≤ vec_capacity loose.old }
    ensures mem { ram.new ≡ replicate (length ram.old) None }
    ensures loose { numbers_of_frames loose.new.items ≡ numbers_of_frames loose.old.items ++
        frames_behind ram.old (range_with_len 0 (length ram.old)) }
    ensures capacity { vec_capacity loose.new ≡ vec_capacity loose.old }
{
    for page in 0..ram.pages() {
        discard_page(ram, loose, page);
    }
}

/// Takes the frames of a request's pages away, where the queue is one whose pages lose them.
pub(crate) fn discard_request(
    ram: &mut Ram,
    loose: &mut Vec<Frame>,
    queue: u32,
    request: &TakenRequest,
)
    requires room { length loose.old.items + count_by is_some ram.old ≤ vec_capacity loose.old }
    ensures mem { ram.new ≡ without_frames queue request.now.pages ram.old }
    ensures loose { numbers_of_frames loose.new.items ≡
        with_lost queue ram.old request.now.pages (numbers_of_frames loose.old.items) }
    ensures capacity { vec_capacity loose.new ≡ vec_capacity loose.old }
{
    if queue != DEFLATE_QUEUE {
        discard_all(ram, loose, request);
    }
}
