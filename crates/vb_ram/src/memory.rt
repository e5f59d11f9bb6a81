//! A guest's memory.

ghost use Rattle.std.specs.Prelude.{◌≡◌, ◌≤◌, ◌<◌, [], Option, Some, None, Err, IsSome, IsOk};
ghost use Rattle.std.specs.Prelude.{OnOk, OnErr, IfOk, IfErr, IfNone, length, replicate};
ghost use Rattle.vb_ram.specs.Pages.{page_at, frame_at, Covers, Supplied, Discarded, IsWhole};

use crate::{Frame, GuestBytes, PAGE_SIZE, RamFault};
use std::alloc::Global;
use std::marker::Model;

/// A guest's memory: pages, each with its frame or without one. Nothing is kept beside the bytes.
#[derive(Drop)]
pub struct Ram {
    /// Each page's frame, or none.
    pages: Vec<Option<Frame>>,
}

impl Model for Ram {
    ghost use Rattle.std.specs.Prelude.{vec_len};
    ghost use Rattle.vb_ram.specs.Pages.{Pages};
    ghost use Rattle.vb_ram.specs.Memory.{IsMemory};

    ghost Value = { Pages };

    ghost view = { λ r. r.pages.items };

    ghost invariant = { λ r. IsMemory (vec_len r.pages) r.pages.items };
}

/// A frame that a page did not take, and why.
#[derive(Drop)]
pub struct SupplyRefused {
    /// `OutOfRam` or `AlreadyBacked`.
    pub fault: RamFault,
    /// The very frame, as it was.
    pub frame: Frame,
}

impl Ram {
    /// Memory of `pages` pages, none of them with a frame. Refused with `Memory` alone.
    pub fn new(alloc: Global, pages: u32) -> Result<Ram, RamFault>
        ensures ok { IfOk result (λ ram. ram ≡ replicate pages None) }
        ensures err { IfErr result (λ fault. fault ≡ RamFault.Memory) }
    {
        let mut all = Vec::with_capacity(alloc, pages as usize)?;
        for _made in 0..pages {
            all.push(None).map_err(|_| RamFault::Memory)?;
        }
        Ok(Ram { pages: all })
    }

    /// Memory of no pages, for which nothing is allocated.
    pub fn empty(alloc: Global) -> Ram
        ensures { result ≡ [] }
    {
        Ram {
            pages: Vec::new(alloc),
        }
    }

    /// Backs a page with a frame, and fills it with zeros: what the frame held is gone.
    ///
    /// Refused with `OutOfRam` where there is no such page, then with `AlreadyBacked` where the
    /// page has a frame. A refused call gives the frame back as it was, and changes nothing.
    pub fn supply(&mut self, page: u32, mut frame: Frame) -> Result<(), SupplyRefused>
        ensures answers { page < length self.old → frame_at self.old page ≡ None → IsOk result }
        ensures out_of_ram { length self.old ≤ page →
            result ≡ Err (record { fault = RamFault.OutOfRam; frame = frame }) }
        ensures already_backed { page < length self.old → IsSome (frame_at self.old page) →
            result ≡ Err (record { fault = RamFault.AlreadyBacked; frame = frame }) }
        ensures ok { OnOk result (Supplied self.old self.new page frame.number) }
        ensures err { OnErr result (self.new ≡ self.old) }
    {
        if page as usize >= self.pages.len() {
            let fault = RamFault::OutOfRam;
            return Err(SupplyRefused { fault, frame });
        }
        if self.pages[page as usize].is_some() {
            let fault = RamFault::AlreadyBacked;
            return Err(SupplyRefused { fault, frame });
        }
        frame.clear();
        self.pages[page as usize] = Some(frame);
        Ok(())
    }

    /// Takes a page's frame away, with the bytes that it holds; none where the page has no frame or
    /// there is no such page.
    pub fn discard(&mut self, page: u32) -> Option<Frame>
        ensures frame { result ≡ page_at self.old page }
        ensures after { Discarded self.old self.new page }
        ensures none { IfNone result (self.new ≡ self.old) }
    {
        if page as usize >= self.pages.len() {
            return None;
        }
        self.pages[page as usize].take()
    }

    /// The number of the frame that backs a page; none where the page has no frame or there is no
    /// such page.
    pub fn backing(&self, page: u32) -> Option<u32>
        ensures frame { result ≡ frame_at self.now page }
        ensures whole { IsWhole self.now }
    {
        match self.pages.get(page as usize) {
            Some(Some(frame)) => Some(frame.number()),
            _ => None,
        }
    }

    fn check(&self, page: u32, offset: usize, len: usize) -> Result<(), RamFault>
        ensures answers { Covers self.now page offset len → IsOk result }
        ensures ok { OnOk result (Covers self.now page offset len) }
        ensures err { IfErr result (λ fault. fault ≡ RamFault.OutOfRam) }
    {
        if (page as usize) < self.pages.len() && offset <= PAGE_SIZE && len <= PAGE_SIZE - offset {
            Ok(())
        } else {
            Err(RamFault::OutOfRam)
        }
    }
}

impl GuestBytes for Ram {
    ghost use Rattle.vb_ram.specs.Part.{no_part};

    ghost mem = { λ ram. ram };

    ghost part = { λ _. no_part };

    fn pages(&self) -> u32 {
        self.pages.len() as u32
    }

    fn has_frame(&self, page: u32) -> bool {
        self.backing(page).is_some()
    }

    fn read(&self, page: u32, offset: usize, out: &mut [u8]) -> Result<(), RamFault> {
        self.check(page, offset, out.len())?;
        match &self.pages[page as usize] {
            Some(frame) => frame.get(offset, out),
            None => out.fill(0),
        }
        Ok(())
    }

    fn write(&mut self, page: u32, offset: usize, bytes: &[u8]) -> Result<(), RamFault> {
        self.check(page, offset, bytes.len())?;
        if bytes.is_empty() {
            return Ok(());
        }
        match &mut self.pages[page as usize] {
            Some(frame) => frame.put(offset, bytes),
            None => return Err(RamFault::NeedsFrame),
        }
        Ok(())
    }

    fn clear_page(&mut self, page: u32) -> Result<(), RamFault> {
        self.check(page, 0, PAGE_SIZE)?;
        match &mut self.pages[page as usize] {
            Some(frame) => frame.clear(),
            None => return Err(RamFault::NeedsFrame),
        }
        Ok(())
    }
}
