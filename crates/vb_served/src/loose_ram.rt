//! Guest memory with the frames that its pages lost, the set of those that are ballooned, and the
//! last statistics.

ghost use Rattle.std.specs.Prelude.{◌≡◌, ◌+◌, ◌++◌, ◌<◌, ◌≤◌, ◌^◌, is_some, length, vec_capacity};
ghost use Rattle.std.specs.Prelude.{count_by};
ghost use Rattle.std.specs.Option.{option_to_list};
ghost use Rattle.std.specs.List.{range_with_len};
ghost use Rattle.vb_ram.specs.Pages.{frame_at, Discarded};
ghost use Rattle.vb_request.specs.Request.{bytes_from, each_once};
ghost use Rattle.vb_device.specs.Base.{numbers_of_frames};
ghost use Rattle.vb_device.specs.Discards.{discarded, frames_behind};
ghost use Rattle.vb_served.specs.Store.{Puts};

use crate::figures::last_in;
use crate::marking::mark_runs;
use crate::reading::{PAGE_BYTES, read_across};
use std::marker::Model;
use vb_bits::BitSet;
use vb_core::{Kind, Marking, Named, Run, Statistic};
use vb_device::discard_page;
use vb_monitor::{Cut, LiveMemory, Spot};
use vb_ram::{Frame, GuestBytes, Ram};
use vb_request::Statistics;

/// Guest memory, the frames that its pages lost, which of them are ballooned, and what the last
/// buffer of statistics said.
#[derive(Drop)]
pub struct LooseRam {
    /// The pages.
    ram: Ram,
    /// Frames that were taken from pages and not handed back yet: there is room for all of them.
    loose: Vec<Frame>,
    /// The pages that are ballooned.
    ballooned: BitSet,
    /// What the last buffer of statistics said.
    last: Statistics,
}

impl Model for LooseRam {
    ghost use Rattle.std.specs.Prelude.{◌≡◌, ◌+◌, ◌≤◌, is_some, length, vec_capacity, count_by};
    ghost use Rattle.vb_device.specs.Base.{numbers_of_frames};
    ghost use Rattle.vb_served.specs.Store.{Store};

    ghost Value = { Store };

    ghost view = { λ s. record {
      mem = s.ram;
      loose = numbers_of_frames s.loose.items;
      ballooned = s.ballooned;
      last = record { free = s.last.free; total = s.last.total };
    } };

    ghost invariant = { λ s.
        (length s.loose.items + count_by is_some s.ram ≤ length s.ram)
        × (length s.ram ≤ vec_capacity s.loose)
        × (length s.ballooned ≡ length s.ram) };
}

/// Takes the frame of a page away, which is loose now, if there is such a page and it has one.
fn discard_if_there(ram: &mut Ram, loose: &mut Vec<Frame>, page: u64)
    requires room { length loose.old.items + count_by is_some ram.old ≤ vec_capacity loose.old }
    ensures after { Discarded ram.old ram.new page }
    ensures numbers { numbers_of_frames loose.new.items ≡ numbers_of_frames loose.old.items ++
        option_to_list (frame_at ram.old page) }
    ensures sum { length loose.new.items + count_by is_some ram.new ≡
        length loose.old.items + count_by is_some ram.old }
    ensures capacity { vec_capacity loose.new ≡ vec_capacity loose.old }
{
    if page < u64::from(ram.pages()) {
        discard_page(ram, loose, page as u32);
    }
}

impl LooseRam {
    /// This memory with these loose frames, as many at most as pages have none, with room for one
    /// of each page, this set of ballooned pages and these last statistics.
    pub fn new(ram: Ram, loose: Vec<Frame>, ballooned: BitSet, last: Statistics) -> LooseRam
        requires few { length loose.items + count_by is_some ram ≤ length ram }
        requires room { length ram ≤ vec_capacity loose }
        requires marks { length ballooned ≡ length ram }
        ensures mem { result.mem ≡ ram }
        ensures loose { result.loose ≡ numbers_of_frames loose.items }
        ensures ballooned { result.ballooned ≡ ballooned }
        ensures last { result.last ≡ record { free = last.free; total = last.total } }
    {
        LooseRam {
            ram,
            loose,
            ballooned,
            last,
        }
    }

    /// What it is made of.
    pub(crate) fn into_parts(self) -> (Ram, Vec<Frame>, BitSet, Statistics)
        ensures mem { result.0 ≡ self.mem }
        ensures loose { numbers_of_frames result.1.items ≡ self.loose }
        ensures ballooned { result.2 ≡ self.ballooned }
        ensures last { record { free = result.3.free; total = result.3.total } ≡ self.last }
        ensures room { length self.mem ≤ vec_capacity result.1 }
        ensures marks { length self.ballooned ≡ length self.mem }
    {
        let LooseRam {
            ram,
            loose,
            ballooned,
            last,
        } = self;
        (ram, loose, ballooned, last)
    }

    /// How many pages there are.
    pub fn pages(&self) -> u32
        ensures { result ≡ length self.now.mem }
    {
        self.ram.pages()
    }

    /// Reads bytes from an address on.
    pub(crate) fn read(&self, address: u64, out: &mut [u8])
        ensures { out.new ≡ bytes_from self.now.mem address (length out.old) }
    {
        read_across(&self.ram, address, out);
    }

    /// Puts bytes at an address, where its page has a frame and all of them.
    fn put(&mut self, address: u64, bytes: &[u8])
        ensures { Puts address bytes.now self.old self.new }
    {
        let page = address / PAGE_BYTES;
        if page < u64::from(self.ram.pages()) {
            let offset = (address % PAGE_BYTES) as usize;
            let _ = self.ram.write(page as u32, offset, bytes);
        }
    }

    /// Takes the frames of `count` pages away, from this one on.
    fn discard_pages(&mut self, first: u64, count: u64)
        requires few { first + count < 2 ^ 64 }
        ensures mem { self.new.mem ≡ discarded (range_with_len first count) self.old.mem }
        ensures loose { self.new.loose ≡ self.old.loose ++
            frames_behind self.old.mem (each_once (range_with_len first count)) }
        ensures ballooned { self.new.ballooned ≡ self.old.ballooned }
        ensures last { self.new.last ≡ self.old.last }
    {
        for k in 0..count {
            discard_if_there(&mut self.ram, &mut self.loose, first + k);
        }
    }
}

impl LiveMemory for LooseRam {
    ghost use Rattle.vb_served.specs.Store.{After};

    ghost goes = { λ s x t. After s x t };

    fn word(&mut self, at: Spot) -> u16 {
        let mut bytes = [0; 2];
        self.read(at.offset, &mut bytes);
        u16::from_le_bytes(bytes)
    }

    fn copy(&mut self, at: Spot, out: &mut [u8]) {
        self.read(at.offset, out);
    }

    fn acquire(&mut self) {}

    fn release(&mut self) {}

    fn full(&mut self) {}

    fn tell_pages(&mut self, kind: Kind, runs: &[Run], _named: Named) {
        match kind {
            Kind::Inflate => mark_runs(&mut self.ballooned, runs, Marking::Enter),
            Kind::Deflate => mark_runs(&mut self.ballooned, runs, Marking::Leave),
            Kind::Statistics | Kind::Hint | Kind::Report => {}
        }
    }

    fn tell_figures(&mut self, figures: &[Statistic]) {
        self.last = last_in(figures);
    }

    fn tell_id(&mut self, _id: u32) {}

    fn pause(&mut self) {}

    fn discard(&mut self, cut: Cut) {
        self.discard_pages(cut.offset / PAGE_BYTES, cut.length / PAGE_BYTES);
    }

    fn write_number(&mut self, at: Spot, number: u32) {
        self.put(at.offset, &number.to_le_bytes());
    }

    fn write_word(&mut self, at: Spot, word: u16) {
        self.put(at.offset, &word.to_le_bytes());
    }
}
