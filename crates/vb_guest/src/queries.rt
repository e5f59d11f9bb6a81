//! Questions about a guest.

ghost use Rattle.std.specs.Prelude.{◌≡◌, ◌≤◌, ℕ, List, [], ◌∷◌, ◌++◌, length, count_by};
ghost use Rattle.std.specs.Prelude.{IfOk, OnOk};
ghost use Rattle.vb_model.specs.Balance.{spare};
ghost use Rattle.vb_virtio.specs.Tests.{pages_where};
ghost use Rattle.vb_model.specs.Queries.{is_place, runs};
ghost use Rattle.vb_virtio.specs.declared.limits.TheConstants.{MAX_GUEST_PAGES};
ghost use Rattle.vb_model.specs.declared.replies.Reply.TheVariants.{Places};
ghost use Rattle.vb_ram.specs.Pages.{Pages};
ghost use Rattle.vb_ram.specs.Part.{Part};
ghost use Rattle.vb_driver.specs.Calls.{AreCountsOf};
ghost use Rattle.vb_driver.specs.State.{DriverState};
ghost use Rattle.vb_guest.specs.Promises.{EachAnswers, OfEach, SomeGuest};
ghost use Rattle.vb_guest.specs.Replies.{runs_reply, balloon_reply, statistics_reply};

use bitflags::Flags;
use std::alloc::{AllocError, Global};
use vb_device::{Device, Statistics};
use vb_driver::Driver;
use vb_model::{BalloonState, PageRun, PageRuns, Place, PlaceCounts, Query};
use vb_virtio::limits::PAGE_SIZE;

/// How many pages each place has.
pub fn places(driver: &Driver) -> PlaceCounts
    ensures answer { (mem : Pages) (part : Part) → EachAnswers mem part driver.now Query.Places
        (Places result) }
    ensures counts { AreCountsOf result driver.now.places }
{
    driver.places()
}

/// The count of ballooned pages, the configuration's two numbers and the status.
pub fn balloon<D: Device>(driver: &Driver, device: &D) -> BalloonState
    ensures answer { EachAnswers (D.mem device.now) (D.part device.now) driver.now Query.Balloon
        (balloon_reply result) }
    ensures ballooned { result.ballooned
        ≡ count_by (λ flag. flag) (D.part device.now).ballooned }
    ensures actual { result.actual ≡ driver.now.actual }
    ensures target { result.target ≡ (D.part device.now).target }
    ensures status { result.status ≡ (D.part device.now).status }
{
    BalloonState {
        ballooned: device.ballooned_count(),
        actual: driver.actual(),
        target: device.target(),
        status: device.status().bits(),
    }
}

/// What the last statistics buffer that the device took says of the guest's memory, in bytes
/// (VIRTIO 1.1, 5.5.6.4).
pub fn statistics<D: Device>(device: &D) -> Statistics
    ensures answer { (d : DriverState) → EachAnswers (D.mem device.now) (D.part device.now) d
        Query.Memory (statistics_reply result) }
    ensures free { result.free ≡ (D.part device.now).last.free }
    ensures total { result.total ≡ (D.part device.now).last.total }
{
    device.stats()
}

/// How many pages the guest has.
pub fn pages<D: Device>(device: &D) -> u32
    ensures answer { (d : DriverState) → OfEach (D.mem device.now) (D.part device.now) d
        (λ g. result ≡ g.config.pages) }
    ensures exact { result ≡ length (D.mem device.now) }
{
    device.pages()
}

/// How many pages the guest can spare (profile): those that are ballooned, and those that its last
/// statistics call free above the floor, in pages; at most all unreserved ones.
pub fn spare<D: Device>(driver: &Driver, device: &D, floor: u32) -> u32
    requires { SomeGuest (D.mem device.now) (D.part device.now) driver.now }
    ensures { OfEach (D.mem device.now) (D.part device.now) driver.now
        (λ g. result ≡ spare floor g) }
{
    let free = device.stats().free.unwrap_or(0) / u64::from(PAGE_SIZE);
    let above = free.saturating_sub(u64::from(floor));
    let most = u64::from(device.pages() - driver.shape().reserved_pages());
    most.min(u64::from(device.ballooned_count()) + above) as u32
}

/// Whether this is the place.
fn is_at(place: Place, other: Place) -> bool
    ensures { result ≡ is_place place other }
{
    place == other
}

/// Adds a page, above those before it, to the runs.
fn push_page(found: &mut Vec<PageRun>, page: u32) -> Result<(), AllocError>
    ensures { OnOk result
        ((pages : List ℕ) → found.old.items ≡ runs pages
        → found.new.items ≡ runs (pages ++ (page ∷ []))) }
{
    let count = found.len();
    if count > 0 && u64::from(found[count - 1].last) + 1 == u64::from(page) {
        found[count - 1].last = page;
        return Ok(());
    }
    match found.push(PageRun {
        first: page,
        last: page,
    }) {
        Ok(()) => Ok(()),
        Err(_) => Err(AllocError),
    }
}

/// The runs of the pages at a place, where these are the places of all pages.
fn runs_at(alloc: Global, places: &[Place], place: Place) -> Result<PageRuns, AllocError>
    requires { length places.now ≤ MAX_GUEST_PAGES }
    ensures { IfOk result (λ found. found ≡ runs (pages_where (is_place place) places.now)) }
{
    let mut found = Vec::new(alloc);
    for page in 0..places.len() {
        if is_at(place, places[page]) {
            push_page(&mut found, page as u32)?;
        }
    }
    Ok(PageRuns::new(found))
}

/// The runs of the ballooned pages.
fn ballooned_runs<D: Device>(alloc: Global, device: &D, count: u32) -> Result<PageRuns, AllocError>
    requires { count ≡ length (D.part device.now).ballooned }
    ensures { IfOk result
        (λ found. found ≡ runs (pages_where (λ flag. flag) (D.part device.now).ballooned)) }
{
    let mut found = Vec::new(alloc);
    for page in 0..count {
        if device.ballooned(page) {
            push_page(&mut found, page)?;
        }
    }
    Ok(PageRuns::new(found))
}

/// Which pages are at a place, as runs by rising page. An allocation failure is the only refusal.
pub fn pages_at(alloc: Global, driver: &Driver, place: Place) -> Result<PageRuns, AllocError>
    ensures answer { (mem : Pages) (part : Part) → EachAnswers mem part driver.now
        (Query.PagesAt place) (runs_reply result) }
    ensures exact { IfOk result
        (λ found. found ≡ runs (pages_where (is_place place) driver.now.places)) }
{
    runs_at(alloc, driver.places_by_page(), place)
}

/// Which pages the device holds to be ballooned, as runs by rising page. An allocation failure is
/// the only refusal.
pub fn pages_ballooned<D: Device>(alloc: Global, device: &D) -> Result<PageRuns, AllocError>
    requires { (d : DriverState) × SomeGuest (D.mem device.now) (D.part device.now) d }
    ensures { (d : DriverState) → EachAnswers (D.mem device.now) (D.part device.now) d
        Query.PagesBallooned (runs_reply result) }
{
    ballooned_runs(alloc, device, device.pages())
}
