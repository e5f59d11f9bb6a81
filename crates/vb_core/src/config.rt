//! The configuration space (VIRTIO 1.2, 5.5.4): `num_pages`, `actual`, `free_page_hint_cmd_id` and
//! `poison_val`, little-endian.

ghost use Rattle.std.specs.Prelude.{◌≡◌, ℕ, ◌+◌, ◌≤◌, ◌<◌, true, false, Ok, Err, length};
ghost use Rattle.std.specs.Prelude.{slice_index};
ghost use Rattle.vb_core.specs.declared.device.Denial.{Denial};
ghost use Rattle.vb_core.specs.Config.{shown_poison, shown_id, config_bytes, covers, word_from};
ghost use Rattle.vb_core.specs.Config.{takes_poison, config_denies, with_written, keeps_reports};
ghost use Rattle.vb_core.specs.Config.{keeps_free};

use crate::hints::STOP;
use crate::settings::{has_free_page_hint, has_page_poison};
use crate::{Denial, Device, Kind};

/// Where `actual` is.
const ACTUAL_AT: u32 = 4;

/// Where `poison_val` is (VIRTIO 1.2, 5.5.4).
const POISON_AT: u32 = 12;

/// How many bytes a field has.
const FIELD_BYTES: usize = 4;

/// Whether `length` bytes from an offset on cover the field at `field` whole.
fn covers(offset: u32, length: usize, field: u32) -> bool
    ensures { result ≡ covers offset length field }
{
    offset <= field && (field - offset) as usize + FIELD_BYTES <= length
}

/// The number that 4 of these bytes are, after `skipped`.
fn word_from(bytes: &[u8], skipped: usize) -> u32
    requires { skipped + FIELD_BYTES ≤ length bytes.now }
    ensures { result ≡ word_from bytes.now skipped }
{
    let mut word = [0; FIELD_BYTES];
    word.copy_from_slice(&bytes[skipped..skipped + FIELD_BYTES]);
    u32::from_le_bytes(word)
}

impl Device {
    /// What is in `poison_val`.
    fn shown_poison(&self) -> u32
        ensures { result ≡ shown_poison self.now }
    {
        if has_page_poison(self.settings.offered) {
            self.poison
        } else {
            0
        }
    }

    /// What is in `free_page_hint_cmd_id`.
    fn shown_id(&self) -> u32
        ensures { result ≡ shown_id self.now }
    {
        if has_free_page_hint(self.settings.offered) {
            self.round.shown
        } else {
            STOP
        }
    }

    /// The bytes of the configuration space.
    fn config_bytes(&self) -> [u8; 16]
        ensures { result ≡ config_bytes self.now }
    {
        let target: [u8; 4] = self.target.to_le_bytes();
        let actual: [u8; 4] = self.actual.to_le_bytes();
        let id: [u8; 4] = self.shown_id().to_le_bytes();
        let poison: [u8; 4] = self.shown_poison().to_le_bytes();
        [
            target[0], target[1], target[2], target[3], actual[0], actual[1], actual[2], actual[3],
            id[0], id[1], id[2], id[3], poison[0], poison[1], poison[2], poison[3],
        ]
    }

    /// The driver reads the configuration space from an offset on: `num_pages` from 0, `actual`
    /// from 4, `free_page_hint_cmd_id` from 8 where FREE_PAGE_HINT is offered, and `poison_val`
    /// from 12 where PAGE_POISON is (VIRTIO 1.2, 5.5.4). All other bytes read as 0.
    pub fn read_config(&self, offset: u32, out: &mut [u8])
        ensures { (k : ℕ) → k < length out.old →
            slice_index out.new k ≡ slice_index (config_bytes self.now) (offset + k) }
    {
        let bytes = self.config_bytes();
        for (k, byte) in out.iter_mut().enumerate() {
            let at = offset as usize + k;
            *byte = if at < bytes.len() { bytes[at] } else { 0 };
        }
    }

    /// Whether a write of `length` bytes at an offset writes `poison_val`.
    fn takes_poison(&self, offset: u32, length: usize) -> bool
        ensures { result ≡ takes_poison offset length self.now }
    {
        has_page_poison(self.settings.offered) && covers(offset, length, POISON_AT)
    }

    /// The driver writes to the configuration space, as many bytes as it likes: `actual` from 4 on,
    /// and `poison_val` from 12 on where PAGE_POISON is offered (VIRTIO 1.2, 5.5.4), are written
    /// where these bytes cover all 4 of the field's. All other bytes are ignored: a device may be
    /// handed its whole configuration for each field that the driver writes.
    ///
    /// Refused with `BadArgument`, and nothing is changed, where neither field is covered.
    pub fn write_config(&mut self, offset: u32, bytes: &[u8]) -> Result<(), Denial>
        ensures denied { config_denies offset (length bytes.now) self.old ≡ true →
            (result ≡ Err Denial.BadArgument) × (self.new ≡ self.old) }
        ensures written { config_denies offset (length bytes.now) self.old ≡ false →
            (result ≡ Ok tt) × (self.new ≡ with_written offset bytes.now self.old) }
    {
        let takes_actual = covers(offset, bytes.len(), ACTUAL_AT);
        let takes_poison = self.takes_poison(offset, bytes.len());
        if !takes_actual && !takes_poison {
            return Err(Denial::BadArgument);
        }
        if takes_actual {
            self.actual = word_from(bytes, (ACTUAL_AT - offset) as usize);
        }
        if takes_poison {
            self.poison = word_from(bytes, (POISON_AT - offset) as usize);
        }
        Ok(())
    }

    /// Whether the pages of a report keep what is in them: the driver negotiated PAGE_POISON, and
    /// wrote to `poison_val` that its free pages hold something else than zeros (VIRTIO 1.2,
    /// 5.5.4). Such pages aren't to be discarded, since they would read as zeros.
    pub fn keeps_reports(&self) -> bool
        ensures { result ≡ keeps_reports self.now }
    {
        has_page_poison(self.features) && self.poison != 0
    }

    /// Whether the free pages that a chain of this kind names keep what is in them: those of a
    /// report where `keeps_reports` says so, and those of a hint there and where the settings don't
    /// discard hints.
    pub fn keeps_free(&self, kind: Kind) -> bool
        ensures { result ≡ keeps_free kind self.now }
    {
        match kind {
            Kind::Inflate | Kind::Deflate | Kind::Statistics => false,
            Kind::Hint => self.keeps_reports() || !self.settings.discards_hints(),
            Kind::Report => self.keeps_reports(),
        }
    }
}
