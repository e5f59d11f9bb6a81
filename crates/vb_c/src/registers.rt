//! A device's start, its registers and its configuration space.

ghost use Rattle.std.specs.Prelude.{◌≡◌, ℕ, ◌+◌, ◌<◌, length, slice_index};
ghost use Rattle.vb_core.specs.Kinds.{kind_of};
ghost use Rattle.vb_core.specs.Config.{config_bytes, keeps_reports};
ghost use Rattle.vb_virtio.specs.Tests.{one_if};
ghost use Rattle.vb_c.specs.Codes.{code_in, number_in, kind_of_code, code_of_kind};
ghost use Rattle.vb_c.specs.Registers.{Starts, WritesStatus, Negotiates, PlacesFor};
ghost use Rattle.vb_c.specs.Registers.{WritesConfig};

use crate::kinds::{code_of_kind, kind_of_code};
use bitflags::Flags;
use vb_core::{Denial, Device, Kind, Settings};
use vb_monitor::{BAD_ARGUMENT, NO_QUEUE, OK, code_of};
use vb_status::{Features, StatusFault};

/// The code of an answer that has nothing but a denial.
pub(crate) fn code_in(answer: Result<(), Denial>) -> u32
    ensures { result ≡ code_in answer }
{
    match answer {
        Ok(()) => OK,
        Err(why) => code_of(why),
    }
}

/// The number of the rule that a write breaks; 0 where none is.
pub(crate) fn number_in(answer: Result<(), StatusFault>) -> u32
    ensures { result ≡ number_in answer }
{
    match answer {
        Ok(()) => 0,
        Err(StatusFault::ClearsBit) => 1,
        Err(StatusFault::OutOfOrder) => 2,
        Err(StatusFault::FeatureNotOffered) => 3,
        Err(StatusFault::MustTellHostMissing) => 4,
        Err(StatusFault::VersionMissing) => 5,
    }
}

/// Makes a device that waits for its driver.
#[unsafe(no_mangle)]
pub extern "C" fn vb_new(device: &mut Device, settings: Settings) -> u32
    ensures { Starts settings device.old device.new result }
{
    if !settings.are_possible() {
        return BAD_ARGUMENT;
    }
    *device = Device::new(settings);
    OK
}

/// Sets the balloon's target to `pages` pages.
#[unsafe(no_mangle)]
pub extern "C" fn vb_set_target(device: &mut Device, pages: u32)
    ensures { device.new ≡ record device.old { target = pages } }
{
    device.set_target(pages);
}

/// The driver writes the status register.
#[unsafe(no_mangle)]
pub extern "C" fn vb_write_status(device: &mut Device, status: u8) -> u32
    ensures { WritesStatus status device.old device.new result }
{
    number_in(device.write_status(status))
}

/// The driver writes its features.
#[unsafe(no_mangle)]
pub extern "C" fn vb_negotiate(device: &mut Device, features: u64) -> u32
    ensures { Negotiates features device.old device.new result }
{
    number_in(device.negotiate(features))
}

/// The kind of the queue of this number, with these features.
#[unsafe(no_mangle)]
pub extern "C" fn vb_kind_of(features: u64, number: u32) -> u32
    ensures { result ≡ code_of_kind (kind_of features number) }
{
    code_of_kind(Kind::of_number(Features::from_bits_retain(features), number))
}

/// The kind of the queue of this number.
#[unsafe(no_mangle)]
pub extern "C" fn vb_kind(device: &Device, number: u32) -> u32
    ensures { result ≡ code_of_kind (kind_of device.now.features number) }
{
    vb_kind_of(device.features, number)
}

/// Gives a queue its place.
#[unsafe(no_mangle)]
pub extern "C" fn vb_place(
    device: &mut Device,
    kind: u32,
    table: u64,
    avail: u64,
    used: u64,
    size: u16,
) -> u32
    ensures { PlacesFor (kind_of_code kind) table avail used size device.old device.new result }
{
    match kind_of_code(kind) {
        None => NO_QUEUE,
        Some(kind) => code_in(device.place(kind, table, avail, used, size)),
    }
}

/// The driver reads the configuration space.
#[unsafe(no_mangle)]
pub extern "C" fn vb_read_config(device: &Device, offset: u32, out: &mut [u8])
    ensures { (k : ℕ) → k < length out.old →
        slice_index out.new k ≡ slice_index (config_bytes device.now) (offset + k) }
{
    device.read_config(offset, out);
}

/// The driver writes to the configuration space.
#[unsafe(no_mangle)]
pub extern "C" fn vb_write_config(device: &mut Device, offset: u32, bytes: &[u8]) -> u32
    ensures { WritesConfig offset bytes.now device.old device.new result }
{
    code_in(device.write_config(offset, bytes))
}

/// Whether the pages of a report keep what is in them.
#[unsafe(no_mangle)]
pub extern "C" fn vb_keeps_reports(device: &Device) -> u32
    ensures { result ≡ one_if (keeps_reports device.now) }
{
    u32::from(device.keeps_reports())
}
