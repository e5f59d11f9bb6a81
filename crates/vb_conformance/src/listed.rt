//! A paced device that keeps its ballooned pages as a list of its own, and may find no memory.

ghost use Rattle.std.specs.Prelude.{◌≡◌, ◌≤◌, ◌<◌, ◌+◌, ◌++◌, ◌∷◌, [], ⊤, MatchOption, IfOk};
ghost use Rattle.std.specs.Prelude.{length, vec_len, vec_capacity, true, false, if◌then◌else◌};
ghost use Rattle.vb_virtio.specs.Tests.{is_in, pages_where};
ghost use Rattle.vb_model.specs.Guest.{is_ballooned};
ghost use Rattle.vb_device.specs.Calls.{IsUnused};

use std::alloc::{AllocError, Global};
use std::marker::Model;
use vb_device::{Claimed, Device, PacedDevice, Statistics, Worked};
use vb_ram::{Config, Frame, GuestBytes, RamFault, SupplyRefused};
use vb_status::{Features, Port, Status, StatusFault};
use vb_virtio::Refusal;

/// The ballooned pages of a guest, rising.
#[derive(Drop)]
struct PageList {
    pages: u32,
    numbers: Vec<u32>,
}

/// Puts a page after the others, for which there is room.
fn put_last(numbers: &mut Vec<u32>, page: u32)
    requires room { vec_len numbers.old < vec_capacity numbers.old }
    ensures items { numbers.new.items ≡ numbers.old.items ++ page ∷ [] }
    ensures len { vec_len numbers.new ≡ vec_len numbers.old + 1 }
    ensures capacity { vec_capacity numbers.old ≤ vec_capacity numbers.new }
{
    match numbers.push(page) {
        Ok(()) => {}
        Err(_) => unreachable!(),
    }
}

/// Puts a page after the others if it is ballooned on the device.
fn put_ballooned(numbers: &mut Vec<u32>, device: &PacedDevice, page: u32)
    requires room { vec_len numbers.old < vec_capacity numbers.old }
    ensures items { numbers.new.items ≡ (if is_ballooned device.now.part.ballooned page
        then numbers.old.items ++ page ∷ [] else numbers.old.items) }
    ensures len { vec_len numbers.new ≤ vec_len numbers.old + 1 }
    ensures capacity { vec_capacity numbers.old ≤ vec_capacity numbers.new }
{
    if device.ballooned(page) {
        put_last(numbers, page);
    }
}

impl PageList {
    /// An empty list, with room for all pages.
    fn new(alloc: Global, pages: u32) -> Result<PageList, AllocError>
        ensures { IfOk result (λ list. (list.pages ≡ pages) × (list.numbers.items ≡ []) ×
            (pages ≤ vec_capacity list.numbers)) }
    {
        let numbers = Vec::with_capacity(alloc, pages as usize)?;
        Ok(PageList { pages, numbers })
    }

    fn has(&self, page: u32) -> bool
        ensures { result ≡ is_in page self.now.numbers.items }
    {
        self.numbers.contains(&page)
    }

    fn count(&self) -> u32
        requires { length self.now.numbers.items ≤ self.now.pages }
        ensures { result ≡ length self.now.numbers.items }
    {
        let _pages = self.pages;
        self.numbers.as_slice().len() as u32
    }

    /// Asks the device page by page.
    fn make_anew(&mut self, device: &PacedDevice)
        requires size { length device.now.part.ballooned ≡ self.old.pages }
        requires room { self.old.pages ≤ vec_capacity self.old.numbers }
        ensures pages { self.new.pages ≡ self.old.pages }
        ensures room { vec_capacity self.old.numbers ≤ vec_capacity self.new.numbers }
        ensures numbers { self.new.numbers.items ≡
            pages_where (λ flag. flag) device.now.part.ballooned }
    {
        self.numbers.clear();
        for page in 0..self.pages {
            put_ballooned(&mut self.numbers, device, page);
        }
    }
}

/// Makes the list anew, if the device has a guest.
fn make_anew(listed: &mut Option<PageList>, device: &PacedDevice)
    requires { MatchOption listed.old ⊤ (λ list. (length device.now.part.ballooned ≡ list.pages) ×
        (list.pages ≤ vec_capacity list.numbers)) }
    ensures { MatchOption listed.new ⊤ (λ list. (length device.now.part.ballooned ≡ list.pages) ×
        (list.pages ≤ vec_capacity list.numbers) ×
        (list.numbers.items ≡ pages_where (λ flag. flag) device.now.part.ballooned)) }
{
    match listed {
        Some(list) => list.make_anew(device),
        None => {}
    }
}

/// An allocation failure, as often as this number says.
fn refuse(refusals: &mut u32) -> Result<(), AllocError> {
    if *refusals == 0 {
        return Ok(());
    }
    *refusals -= 1;
    Err(AllocError)
}

/// A paced device in another's hands: what is ballooned is answered from a list of its own.
#[derive(Drop)]
pub struct ListedDevice {
    inner: PacedDevice,
    listed: Option<PageList>,
    /// How often it will find no memory for a guest.
    refusals: u32,
}

impl Model for ListedDevice {
    ghost use Rattle.std.specs.Prelude.{◌≡◌, ◌≤◌, ⊤, MatchOption, length, vec_capacity};
    ghost use Rattle.vb_virtio.specs.Tests.{pages_where};
    ghost use Rattle.vb_device.specs.State.{DeviceState};

    ghost Value = { DeviceState };

    ghost view = { λ s. s.inner };

    ghost invariant = { λ s. MatchOption s.listed ⊤
        (λ list. (length s.inner.part.ballooned ≡ list.pages) ×
        (list.pages ≤ vec_capacity list.numbers) ×
        (list.numbers.items ≡ pages_where (λ flag. flag) s.inner.part.ballooned)) };
}

impl ListedDevice {
    /// A device that no guest has yet, which finds no memory for one `refusals` times.
    pub fn refusing(alloc: Global, refusals: u32) -> ListedDevice
        ensures unused { IsUnused result.mem result.part }
        ensures paced { result.part.paced ≡ true }
        ensures keeps { result.part.keeps ≡ false }
        ensures own { result.part.own ≡ [] }
    {
        ListedDevice {
            inner: PacedDevice::new(alloc),
            listed: None,
            refusals,
        }
    }
}

impl GuestBytes for ListedDevice {
    ghost mem = { λ d. d.mem };

    ghost part = { λ d. d.part };

    fn pages(&self) -> u32 {
        self.inner.pages()
    }

    fn has_frame(&self, page: u32) -> bool {
        self.inner.has_frame(page)
    }

    fn read(&self, page: u32, offset: usize, out: &mut [u8]) -> Result<(), RamFault> {
        self.inner.read(page, offset, out)
    }

    fn write(&mut self, page: u32, offset: usize, bytes: &[u8]) -> Result<(), RamFault> {
        self.inner.write(page, offset, bytes)
    }

    fn clear_page(&mut self, page: u32) -> Result<(), RamFault> {
        self.inner.clear_page(page)
    }
}

impl Port for ListedDevice {
    fn status(&self) -> Status {
        self.inner.status()
    }

    fn write_status(&mut self, write: Status) -> Result<(), StatusFault> {
        let answer = self.inner.write_status(write);
        make_anew(&mut self.listed, &self.inner);
        answer
    }

    fn negotiate(&mut self, wanted: Features) -> Result<(), StatusFault> {
        self.inner.negotiate(wanted)
    }

    fn target(&self) -> u32 {
        self.inner.target()
    }

    fn set_actual(&mut self, pages: u32) {
        self.inner.set_actual(pages);
    }
}

impl Device for ListedDevice {
    ghost answers = { λ _ _. false };

    fn attach(&mut self, alloc: Global, config: Config) -> Result<(), AllocError> {
        refuse(&mut self.refusals)?;
        let list = PageList::new(alloc, config.pages)?;
        self.inner.attach(alloc, config)?;
        self.listed = Some(list);
        Ok(())
    }

    fn supply(&mut self, page: u32, frame: Frame) -> Result<(), SupplyRefused> {
        self.inner.supply(page, frame)
    }

    fn backing(&self, page: u32) -> Option<u32> {
        self.inner.backing(page)
    }

    fn paced(&self) -> bool {
        self.inner.paced()
    }

    fn keeps(&self) -> bool {
        self.inner.keeps()
    }

    fn set_target(&mut self, pages: u32) {
        self.inner.set_target(pages);
    }

    fn take(&mut self, queue: u32) -> Result<Option<u16>, Refusal> {
        self.inner.take(queue)
    }

    fn work(&mut self) -> Result<Option<Worked>, Refusal> {
        self.inner.work()
    }

    fn finish(&mut self, queue: u32, index: u32) -> Result<u16, Refusal> {
        let answer = self.inner.finish(queue, index);
        make_anew(&mut self.listed, &self.inner);
        answer
    }

    fn serve(&mut self, queue: u32) -> Result<Option<u16>, Refusal> {
        let answer = self.inner.serve(queue);
        make_anew(&mut self.listed, &self.inner);
        answer
    }

    fn sweep(&mut self, page: u32) -> Result<bool, Refusal> {
        self.inner.sweep(page)
    }

    fn ask_stats(&mut self) -> Result<(), Refusal> {
        self.inner.ask_stats()
    }

    fn stats(&self) -> Statistics {
        self.inner.stats()
    }

    fn ballooned(&self, page: u32) -> bool {
        match &self.listed {
            Some(list) => list.has(page),
            None => self.inner.ballooned(page),
        }
    }

    fn ballooned_count(&self) -> u32 {
        match &self.listed {
            Some(list) => list.count(),
            None => self.inner.ballooned_count(),
        }
    }

    fn detach(&mut self) {
        self.inner.detach();
        make_anew(&mut self.listed, &self.inner);
    }

    fn pop_loose(&mut self) -> Option<Frame> {
        self.inner.pop_loose()
    }

    fn claim(&mut self) -> Claimed {
        self.inner.claim()
    }

    fn put_back(&mut self, frame: Frame) -> Option<Frame> {
        self.inner.put_back(frame)
    }
}
