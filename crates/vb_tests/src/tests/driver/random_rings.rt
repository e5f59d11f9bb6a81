//! Used rings of random bytes: a driver answers as a second reading of the same bytes has it, which
//! is written from the rules alone.

use super::{ALL, Answer, Guest, Step, Table, is_up, small_queues};
use bitflags::Flags;
use byteorder::{ByteOrder, LittleEndian};
use rand_core::Rng;
use rand_pcg::Pcg32;
use std::alloc::Global;
use std::process::Abort;
use vb_ram::GuestBytes;
use vb_status::Port;
use vb_virtio::Refusal;

/// A number below this one, or 0.
fn below(numbers: &mut Pcg32, end: u32) -> u32 {
    numbers.next_u32().checked_rem(end).unwrap_or(0)
}

/// Who owns a head's descriptors.
#[derive(Clone, Copy, PartialEq, Eq)]
enum Owner {
    /// The driver, which may make a request of them.
    Driver,
    /// The device: the request is out.
    Device,
}

/// Who owns a head of a queue on which nothing is asked: the device has the statistics buffer.
fn owner_at_rest(queue: u32) -> Owner {
    if queue == 2 {
        Owner::Device
    } else {
        Owner::Driver
    }
}

/// The requests of a queue of 8 as the test remembers them.
#[derive(Drop)]
struct Outstanding {
    heads: [Owner; 8],
    /// How many used elements were taken back.
    seen: u16,
}

impl Outstanding {
    fn none() -> Outstanding {
        Outstanding {
            heads: [Owner::Driver; 8],
            seen: 0,
        }
    }

    fn count(&self) -> u32 {
        let mut count: u32 = 0;
        for head in 0..8 {
            if self.heads[head] == Owner::Device {
                count = count.saturating_add(1);
            }
        }
        count
    }

    fn give(&mut self, head: u16, owner: Owner) {
        if let Some(there) = self.heads.get_mut(usize::from(head)) {
            *there = owner;
        }
    }

    /// What the used ring says next: a head, or none.
    fn next(&self, used: &[u8; 70]) -> Result<Option<u16>, Refusal> {
        let ahead = LittleEndian::read_u16(&used[2..]).wrapping_sub(self.seen);
        if ahead == 0 {
            return Ok(None);
        }
        if u32::from(ahead) > self.count() {
            return Err(Refusal::RingBroken);
        }
        let place = usize::from(self.seen % 8);
        let id = LittleEndian::read_u32(&used[4 + 8 * place..]);
        match self.heads.get(id as usize) {
            Some(Owner::Device) => Ok(Some((id % 8) as u16)),
            _ => Err(Refusal::RingBroken),
        }
    }

    /// An id, usually one that is out.
    fn random_id(&self, numbers: &mut Pcg32) -> u32 {
        match below(numbers, 32) {
            0 => numbers.next_u32(),
            1 => below(numbers, 8).wrapping_add(65_536),
            2 => below(numbers, 10),
            _ => below(numbers, self.count()),
        }
    }

    /// A used index, usually one that isn't too far ahead.
    fn random_index(&self, numbers: &mut Pcg32) -> u16 {
        let ahead = match below(numbers, 16) {
            0 => numbers.next_u32(),
            1 => below(numbers, 10),
            _ => below(numbers, self.count().saturating_add(1)),
        };
        self.seen.wrapping_add((ahead % 65_536) as u16)
    }

    fn random_used(&self, numbers: &mut Pcg32) -> [u8; 70] {
        let mut bytes = [0; 70];
        numbers.fill_bytes(&mut bytes);
        LittleEndian::write_u16(&mut bytes[2..], self.random_index(numbers));
        for k in 0..8 {
            LittleEndian::write_u32(&mut bytes[4 + 8 * k..], self.random_id(numbers));
        }
        bytes
    }
}

/// A guest whose requests of one queue are remembered.
#[derive(Drop)]
struct Played<'a> {
    guest: &'a mut Guest,
    queue: u32,
    outstanding: Outstanding,
}

impl Played<'_> {
    /// Begins anew with nothing out but the statistics buffer, and with pages to request back for a
    /// queue of deflates.
    fn begin(&mut self) {
        let _ = self.guest.answer(Step::Reset);
        let _ = self.guest.answer(Step::SetTarget(48));
        let _ = self.guest.answer(Step::Init(ALL));
        self.outstanding = Outstanding::none();
        if self.queue == 1 {
            let _ = self.guest.answer(Step::Inflate(48));
            let _ = self.guest.answer(Step::Use(0, 0, 1));
            let _ = self.guest.answer(Step::Reap(0));
        }
        self.outstanding.give(0, owner_at_rest(self.queue));
    }

    fn post(&mut self) -> Result<Answer, Refusal> {
        match self.queue {
            0 => self.guest.answer(Step::Inflate(1)),
            1 => self.guest.answer(Step::Oom(1)),
            4 => self.guest.answer(Step::Report(0)),
            _ => Ok(Answer::Done),
        }
    }

    /// Posts `count` requests, as far as the driver does.
    fn post_some(&mut self, count: u32) {
        for _request in 0..count {
            if let Ok(Answer::Posted(head, _)) = self.post() {
                self.outstanding.give(head, Owner::Device);
            }
        }
    }

    /// Takes a request back, and answers its head; of the statistics buffer, which goes out again,
    /// head 0.
    fn take_back(&mut self) -> Result<Option<u16>, Refusal> {
        let answer = match self.queue {
            2 => self.guest.stats()?,
            _ => self.guest.reap(self.queue)?,
        };
        match answer {
            Answer::Reaped(head, _) => Ok(Some(head)),
            Answer::Is(true) => Ok(Some(0)),
            _ => Ok(None),
        }
    }

    /// Whether requests are taken back as the second reading has it, until there is no further one.
    fn takes_back_as_read(&mut self, used: &[u8; 70]) -> bool {
        for _request in 0..9 {
            let expected = self.outstanding.next(used);
            if self.take_back() != expected {
                return false;
            }
            match expected {
                Ok(Some(head)) => self.outstanding.give(head, owner_at_rest(self.queue)),
                Ok(None) => return true,
                Err(_) => return self.guest.port.status().bits() == 143,
            }
            self.outstanding.seen = self.outstanding.seen.wrapping_add(1);
        }
        false
    }

    /// The number of the first of 5,000 used rings that is answered otherwise.
    fn first_wrong_ring(&mut self, numbers: &mut Pcg32) -> Option<usize> {
        let page = if self.queue == 4 { 3 } else { self.queue };
        for at in 0..5_000 {
            if !is_up(&self.guest.port) {
                self.begin();
            }
            self.post_some(below(numbers, 5));
            let used = self.outstanding.random_used(numbers);
            let _ = self.guest.port.write(page, 152, &used);
            if !self.takes_back_as_read(&used) {
                return Some(at);
            }
        }
        None
    }
}

/// The number of the first of 5,000 used rings of a queue that the guest's driver answers
/// otherwise.
pub(super) fn first_wrong(guest: &mut Guest, queue: u32) -> Option<usize> {
    let mut numbers = Pcg32::new(1, u64::from(queue));
    let mut played = Played {
        guest,
        queue,
        outstanding: Outstanding::none(),
    };
    played.first_wrong_ring(&mut numbers)
}

/// Expects that a new guest's driver answers each used ring as the second reading has it.
fn expect_as_read(rt: &impl Abort, alloc: Global, queue: u32) {
    let table = Table::Rings(queue);
    let wrong = super::first_wrong(rt, alloc, small_queues(64), &[(0, 13)], table);
    assert_eq!(rt; wrong, None);
}

#[test]
fn random_rings_of_requests_are_answered_as_read(rt: HostRuntime) {
    for queue in [0, 1] {
        expect_as_read(&rt, rt.alloc(), queue);
    }
}

#[test]
fn random_rings_of_statistics_and_reports_are_answered_as_read(rt: HostRuntime) {
    for queue in [2, 4] {
        expect_as_read(&rt, rt.alloc(), queue);
    }
}
