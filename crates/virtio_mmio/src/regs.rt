//! The registers, call by call.

ghost use Rattle.std.specs.Prelude.{◌≡◌, ◌<◌, ◌≤◌, ◌%◌, ◌^◌, ◌==◌, ℕ, true, false, IfSome, if◌then◌else◌};
ghost use Rattle.std.specs.Borrow.{sem};
ghost use Rattle.std.specs.Option.{option_copied_mut};
ghost use Rattle.virt_queue.specs.Queue.{is_legal};
ghost use Rattle.shared_definitions.specs.Halves.{low_half, high_half, with_low_half, with_high_half};
ghost use Rattle.virtio_mmio.specs.Device.{Device, reset_device, accepts_features, is_live, raise_used, fail_device, config_bytes};
ghost use Rattle.virtio_mmio.specs.Registers.{has_queue, find_queue, is_queue_ready, serves, of_queue, with_queue, is_bad_size, ready_number, queue_num_max, write_num, start_queue, stop_queue, write_ready, device_features, write_driver_features, write_status, with_desc, with_driver, with_device, config_byte, config_number, read_config, read_register, write_register, write_event};
ghost use Rattle.virtio_mmio.specs.Fields.{CanHold, fields_of, device_of};

use crate::fields::DeviceFields;
use crate::kind::{Event, Kind};
use shared_definitions::{with_high_half, with_low_half};
use std::marker::Model;
use virt_queue::{Queue, QueueFields, is_queue_size};

/// The bit of the device status by which the driver says that it runs.
const DRIVER_OK: u32 = 4;
/// The bit by which it accepts the features.
const FEATURES_OK: u32 = 8;
/// The bit by which the device says that it needs a reset.
const NEEDS_RESET: u32 = 64;
/// The bit of the interrupt status for a used buffer.
const USED_BUFFER: u32 = 1;
/// The bit for a change of the configuration.
const CONFIGURATION_CHANGE: u32 = 2;
/// Where the configuration space begins.
const CONFIG: u32 = 0x100;
/// The first offset behind it.
const END: u32 = 0x1000;

/// The registers of a device, with its queues.
///
/// Contracts see them as a `Device`. A block device has one queue; the other stays all 0.
#[derive(Drop)]
pub struct Regs {
    kind: Kind,
    status: u32,
    device_features_sel: u32,
    driver_features: u64,
    driver_features_sel: u32,
    queue_sel: u32,
    interrupt_status: u32,
    first: Queue,
    second: Queue,
}

impl Model for Regs {
    ghost use Rattle.std.specs.Prelude.{◌≡◌, false};
    ghost use Rattle.virt_queue.specs.Queue.{no_queue};
    ghost use Rattle.virtio_mmio.specs.Device.{Device, has_second_queue};

    ghost Value = { Device };

    ghost view = { λ r. record {
      kind = r.kind;
      status = r.status;
      device_features_sel = r.device_features_sel;
      driver_features = r.driver_features;
      driver_features_sel = r.driver_features_sel;
      queue_sel = r.queue_sel;
      interrupt_status = r.interrupt_status;
      first = r.first;
      second = r.second;
    } };

    ghost invariant = { λ r. has_second_queue r.kind ≡ false → r.second ≡ no_queue };
}

impl Regs {
    ghost use Rattle.virtio_mmio.specs.Lending.{LendsFirst, LendsQueue};

    /// The registers of a device after a reset: every field is 0.
    pub fn new(kind: Kind) -> Regs
        ensures { result ≡ reset_device kind }
    {
        Regs {
            kind,
            status: 0,
            device_features_sel: 0,
            driver_features: 0,
            driver_features_sel: 0,
            queue_sel: 0,
            interrupt_status: 0,
            first: Queue::new(),
            second: Queue::new(),
        }
    }

    /// What a load of 4 bytes at an aligned offset reads (VIRTIO 1.1, 4.2.2). In the configuration
    /// space, from 0x100 to 0xFFF, it is the bytes there; where there is no register, or one that
    /// is only written, it is 0.
    #[tactic(auto, unfolding(crate::specs::Registers::read_register, crate::specs::Registers::readables))]
    pub fn read(&self, offset: u32) -> u32
        ensures { result ≡ read_register self.now offset }
    {
        if CONFIG <= offset {
            return self.config_number(u64::from(offset - CONFIG), 4);
        }
        match offset {
            0x000 => 0x7472_6976,
            0x004 => 2,
            0x008 => self.kind.device_id(),
            0x00C => 0x4F4C_4F43,
            0x010 => self.device_features(),
            0x034 => self.queue_num_max(),
            0x044 => self.queue_ready(),
            0x060 => self.interrupt_status,
            0x070 => self.status,
            _ => 0,
        }
    }

    /// The `width` bytes of the configuration space at an offset of the device, as a number,
    /// little-endian. `None` exactly where it isn't an aligned access of 1, 2 or 4 bytes from 0x100
    /// to 0xFFF.
    #[tactic(auto, unfolding(crate::specs::Registers::read_config))]
    pub fn config(&self, offset: u32, width: u32) -> Option<u32>
        ensures { result ≡ read_config self.now offset width }
    {
        if width != 1 && width != 2 && width != 4 {
            return None;
        }
        if offset % width != 0 || offset < CONFIG || END - width < offset {
            return None;
        }
        Some(self.config_number(u64::from(offset - CONFIG), width))
    }

    /// Writes a register (VIRTIO 1.1, 4.2.2). A write is ignored where there is no register, or one
    /// that is only read, and a queue's register where the selected queue doesn't exist. A queue
    /// that is made ready while its number isn't a power of two from 1 to 256 makes the device
    /// fail.
    #[tactic(auto, unfolding(crate::specs::Registers::write_register, crate::specs::Registers::write_event, crate::specs::Registers::writables))]
    pub fn write(&mut self, offset: u32, value: u32) -> Event
        ensures after { self.new ≡ write_register self.old offset value }
        ensures event { result ≡ write_event offset value }
    {
        match offset {
            0x014 => self.device_features_sel = value,
            0x020 => self.write_driver_features(value),
            0x024 => self.driver_features_sel = value,
            0x030 => self.queue_sel = value,
            0x038 => self.write_num(value),
            0x044 => self.write_ready(value),
            0x050 => return Event::Notify(value),
            0x064 => {
                self.interrupt_status &= !value;
                return Event::Ack;
            }
            0x070 => return self.write_status(value),
            0x080 => self.write_desc_low(value),
            0x084 => self.write_desc_high(value),
            0x090 => self.write_driver_low(value),
            0x094 => self.write_driver_high(value),
            0x0A0 => self.write_device_low(value),
            0x0A4 => self.write_device_high(value),
            _ => {}
        }
        Event::Nothing
    }

    /// The queue with this number. `None` exactly where there is none.
    pub fn queue(&mut self, k: u32) -> Option<&mut Queue>
        ensures* writes_back { sem 𝓛 (LendsQueue self.entry k result) }
        ensures queue { option_copied_mut result ≡ find_queue self.old k }
    {
        match k {
            0 => Some(&mut self.first),
            1 => {
                if self.kind.has_second_queue() {
                    Some(&mut self.second)
                } else {
                    None
                }
            }
            _ => None,
        }
    }

    /// The first queue, which every device has.
    pub fn first(&mut self) -> &mut Queue
        ensures* writes_back { sem 𝓛 (LendsFirst self.entry result) }
        ensures queue { result.now ≡ self.old.first }
    {
        &mut self.first
    }

    /// Whether the device serves a queue: the driver runs, no fault came since the last reset, and
    /// the queue is ready.
    pub fn serves(&self, k: u32) -> bool
        ensures { result ≡ serves self.now k }
    {
        self.is_live() && self.is_queue_ready(k)
    }

    /// Whether there is such a queue, and it is ready.
    fn is_queue_ready(&self, k: u32) -> bool
        ensures { result ≡ is_queue_ready self.now k }
    {
        match k {
            0 => self.first.fields().ready,
            1 => self.kind.has_second_queue() && self.second.fields().ready,
            _ => false,
        }
    }

    /// The interrupt status.
    pub fn interrupt(&self) -> u32
        ensures { result ≡ self.now.interrupt_status }
    {
        self.interrupt_status
    }

    /// Whether the driver runs and no fault came since the last reset.
    pub fn is_live(&self) -> bool
        ensures { result ≡ is_live self.now }
    {
        self.status & DRIVER_OK != 0 && self.status & NEEDS_RESET == 0
    }

    /// Asks for the interrupt of a used buffer.
    pub fn raise(&mut self)
        ensures { self.new ≡ raise_used self.old }
    {
        self.interrupt_status |= USED_BUFFER;
    }

    /// A ring is at fault: the device needs a reset, and tells it where the driver runs.
    pub fn fail(&mut self)
        ensures { self.new ≡ fail_device self.old }
    {
        if self.status & DRIVER_OK != 0 {
            self.interrupt_status |= CONFIGURATION_CHANGE;
        }
        self.status |= NEEDS_RESET;
    }

    /// What the device holds. With its kind it makes the same device again.
    pub fn fields(&self) -> DeviceFields
        ensures value { result ≡ fields_of self.now }
        ensures legal { CanHold self.now.kind result }
        ensures back { device_of self.now.kind result ≡ self.now }
    {
        DeviceFields {
            status: self.status,
            device_features_sel: self.device_features_sel,
            driver_features: self.driver_features,
            driver_features_sel: self.driver_features_sel,
            queue_sel: self.queue_sel,
            interrupt_status: self.interrupt_status,
            queues: [self.first.fields(), self.second.fields()],
        }
    }

    /// It holds these values from now on. It asks of each ready queue that its number is a power of
    /// two from 1 to 256, and of a block device that its second queue is all 0.
    pub fn set_fields(&mut self, f: &DeviceFields)
        requires { CanHold self.old.kind f.now }
        ensures { self.new ≡ device_of self.old.kind f.now }
    {
        self.first.set_fields(&f.queues[0]);
        self.second.set_fields(&f.queues[1]);
        self.status = f.status;
        self.device_features_sel = f.device_features_sel;
        self.driver_features = f.driver_features;
        self.driver_features_sel = f.driver_features_sel;
        self.queue_sel = f.queue_sel;
        self.interrupt_status = f.interrupt_status;
    }

    /// DeviceFeatures: the selected half of the features that are offered.
    fn device_features(&self) -> u32
        ensures { result ≡ device_features self.now }
    {
        let offered = self.kind.offered_features();
        match self.device_features_sel {
            0 => (offered % 0x1_0000_0000) as u32,
            1 => (offered >> 32) as u32,
            _ => 0,
        }
    }

    /// Whether the selected queue exists.
    fn has_selected(&self) -> bool
        ensures { result ≡ has_queue self.now self.now.queue_sel }
    {
        self.queue_sel == 0 || (self.queue_sel == 1 && self.kind.has_second_queue())
    }

    /// What the selected queue holds, where it exists.
    fn selected(&self) -> Option<QueueFields>
        ensures value { result ≡ find_queue self.now self.now.queue_sel }
        ensures legal { IfSome result (λ q. is_legal q ≡ true) }
    {
        if self.queue_sel == 0 {
            Some(self.first.fields())
        } else if self.has_selected() {
            Some(self.second.fields())
        } else {
            None
        }
    }

    /// QueueNumMax.
    fn queue_num_max(&self) -> u32
        ensures { result ≡ of_queue self.now (λ q. queue_num_max) }
    {
        if self.has_selected() { 256 } else { 0 }
    }

    /// QueueReady.
    fn queue_ready(&self) -> u32
        ensures { result ≡ of_queue self.now ready_number }
    {
        match self.selected() {
            Some(q) => u32::from(q.ready),
            None => 0,
        }
    }

    /// Byte `place` of the configuration space.
    fn config_byte(&self, place: u64) -> u32
        ensures value { result ≡ config_byte self.now place }
        ensures small { result < 2 ^ 8 }
    {
        let bytes = match self.kind {
            Kind::Network => [0x52, 0x54, 0x00, 0x12, 0x34, 0x56, 0, 0],
            Kind::Block { sectors } => u64::from(sectors).to_le_bytes(),
        };
        match bytes.get(place as usize) {
            Some(byte) => u32::from(*byte),
            None => 0,
        }
    }

    /// The number of 1, 2 or 4 bytes from a place of the configuration space on.
    fn config_number(&self, place: u64, width: u32) -> u32
        requires { place < 2 ^ 32 }
        ensures { result ≡ config_number self.now place width }
    {
        let first = self.config_byte(place);
        if width == 1 {
            return first;
        }
        let half = first + (self.config_byte(place + 1) << 8);
        if width == 2 {
            return half;
        }
        half + (self.config_byte(place + 2) << 16) + (self.config_byte(place + 3) << 24)
    }

    /// DriverFeatures: the selected half; a write of any other is ignored.
    fn write_driver_features(&mut self, value: u32)
        ensures { self.new ≡ write_driver_features self.old value }
    {
        match self.driver_features_sel {
            0 => self.driver_features = with_low_half(self.driver_features, value),
            1 => self.driver_features = with_high_half(self.driver_features, value),
            _ => {}
        }
    }

    /// Whether the driver's features are offered, and VERSION_1 is one of them.
    fn accepts_features(&self) -> bool
        ensures { result ≡ accepts_features self.now.kind self.now.driver_features }
    {
        self.driver_features & self.kind.offered_features() == self.driver_features
            && self.driver_features >> 32 & 1 == 1
    }

    /// Status: 0 resets the device.
    fn write_status(&mut self, value: u32) -> Event
        ensures after { self.new ≡ write_status self.old value }
        ensures event { result ≡ (if value == 0 then Event.Reset else Event.Nothing) }
    {
        if value == 0 {
            *self = Regs::new(self.kind);
            return Event::Reset;
        }
        let kept = (value & !NEEDS_RESET) | (self.status & NEEDS_RESET);
        self.status = if self.accepts_features() {
            kept
        } else {
            kept & !FEATURES_OK
        };
        Event::Nothing
    }

    /// Changes what the selected queue holds, where it exists.
    fn set_selected(&mut self, q: QueueFields)
        requires { is_legal q ≡ true }
        ensures { self.new ≡ with_queue self.old (λ _. q) }
    {
        if self.queue_sel == 0 {
            self.first.set_fields(&q);
        } else if self.has_selected() {
            self.second.set_fields(&q);
        }
    }

    /// QueueNum: a write is ignored while the queue is ready.
    fn write_num(&mut self, value: u32)
        ensures { self.new ≡ with_queue self.old (write_num value) }
    {
        if let Some(mut q) = self.selected() {
            if !q.ready {
                q.num = value;
                self.set_selected(q);
            }
        }
    }

    /// QueueReady: by bit 0 the queue is made ready, or not ready with both positions 0.
    fn write_ready(&mut self, value: u32)
        ensures { self.new ≡ write_ready self.old value }
    {
        if value % 2 == 0 {
            self.stop_queue();
        } else if self.is_bad_size() {
            self.fail();
        } else {
            self.start_queue();
        }
    }

    /// Whether the selected queue can't be made ready: it isn't yet, and its number is no size.
    fn is_bad_size(&self) -> bool
        ensures { result ≡ is_bad_size self.now }
    {
        match self.selected() {
            Some(q) => !q.ready && !is_queue_size(q.num),
            None => false,
        }
    }

    /// The selected queue isn't ready any more.
    fn stop_queue(&mut self)
        ensures { self.new ≡ with_queue self.old stop_queue }
    {
        if let Some(mut q) = self.selected() {
            q.ready = false;
            q.next = 0;
            q.used = 0;
            self.set_selected(q);
        }
    }

    /// The selected queue is ready.
    fn start_queue(&mut self)
        requires { is_bad_size self.old ≡ false }
        ensures { self.new ≡ with_queue self.old start_queue }
    {
        if let Some(mut q) = self.selected() {
            q.ready = true;
            self.set_selected(q);
        }
    }

    /// QueueDescLow.
    fn write_desc_low(&mut self, value: u32)
        ensures { self.new ≡ with_desc with_low_half self.old value }
    {
        if let Some(mut q) = self.selected() {
            q.desc = with_low_half(q.desc, value);
            self.set_selected(q);
        }
    }

    /// QueueDescHigh.
    fn write_desc_high(&mut self, value: u32)
        ensures { self.new ≡ with_desc with_high_half self.old value }
    {
        if let Some(mut q) = self.selected() {
            q.desc = with_high_half(q.desc, value);
            self.set_selected(q);
        }
    }

    /// QueueDriverLow.
    fn write_driver_low(&mut self, value: u32)
        ensures { self.new ≡ with_driver with_low_half self.old value }
    {
        if let Some(mut q) = self.selected() {
            q.driver = with_low_half(q.driver, value);
            self.set_selected(q);
        }
    }

    /// QueueDriverHigh.
    fn write_driver_high(&mut self, value: u32)
        ensures { self.new ≡ with_driver with_high_half self.old value }
    {
        if let Some(mut q) = self.selected() {
            q.driver = with_high_half(q.driver, value);
            self.set_selected(q);
        }
    }

    /// QueueDeviceLow.
    fn write_device_low(&mut self, value: u32)
        ensures { self.new ≡ with_device with_low_half self.old value }
    {
        if let Some(mut q) = self.selected() {
            q.device = with_low_half(q.device, value);
            self.set_selected(q);
        }
    }

    /// QueueDeviceHigh.
    fn write_device_high(&mut self, value: u32)
        ensures { self.new ≡ with_device with_high_half self.old value }
    {
        if let Some(mut q) = self.selected() {
            q.device = with_high_half(q.device, value);
            self.set_selected(q);
        }
    }
}
