//! From the values of a state to bytes.

ghost use Rattle.std.specs.Prelude.{◌≡◌, ℕ, ◌+◌, ◌<◌, ◌≤◌, ◌^◌, ◌++◌, true, length, slice_index};
ghost use Rattle.shared_definitions.specs.Bytes.{AreBytes};
ghost use Rattle.virtio_mmio.specs.Fields.{queue_at};
ghost use Rattle.byteorder.specs.Endian.{big_bytes};
ghost use Rattle.arrayvec.specs.ArrayVec.{array_vec_len};
ghost use Rattle.machine_bytes.specs.Legal.{AreCsrsInRange, IsDeviceInRange, IsInRange, IsLegal, IsQueueInRange};
ghost use Rattle.machine_bytes.specs.Reading.{fields_in, accepts};
ghost use Rattle.machine_bytes.specs.Spelling.{flag_number, words_bytes, csr_bytes, reservation_bytes, queue_bytes, register_bytes, network_bytes, block_bytes, bytes_of};

use crate::fields::StateFields;
use arrayvec::ArrayVec;
use rv_core::HartFields;
use rv_traps::CsrFields;
use virt_queue::QueueFields;
use virtio_mmio::DeviceFields;

/// Appends bytes, for which there is room.
fn put(out: &mut ArrayVec<u8, 359>, bytes: &[u8])
    requires { array_vec_len out.old + length bytes.now ≤ 359 }
    ensures items { out.new.items ≡ out.old.items ++ bytes.now }
    ensures len { array_vec_len out.new ≡ array_vec_len out.old + length bytes.now }
{
    if out.try_extend_from_slice(bytes).is_err() {
        unreachable!()
    }
}

/// Appends a number of 2 bytes.
fn put_half(out: &mut ArrayVec<u8, 359>, number: u16)
    requires { array_vec_len out.old + 2 ≤ 359 }
    ensures items { out.new.items ≡ out.old.items ++ big_bytes 2 number }
    ensures len { array_vec_len out.new ≡ array_vec_len out.old + 2 }
    ensures in_range { number < 2 ^ 16 }
{
    put(out, &number.to_be_bytes());
}

/// Appends a number of 4 bytes.
fn put_word(out: &mut ArrayVec<u8, 359>, number: u32)
    requires { array_vec_len out.old + 4 ≤ 359 }
    ensures items { out.new.items ≡ out.old.items ++ big_bytes 4 number }
    ensures len { array_vec_len out.new ≡ array_vec_len out.old + 4 }
    ensures in_range { number < 2 ^ 32 }
{
    put(out, &number.to_be_bytes());
}

/// Appends a number of 8 bytes.
fn put_double(out: &mut ArrayVec<u8, 359>, number: u64)
    requires { array_vec_len out.old + 8 ≤ 359 }
    ensures items { out.new.items ≡ out.old.items ++ big_bytes 8 number }
    ensures len { array_vec_len out.new ≡ array_vec_len out.old + 8 }
    ensures in_range { number < 2 ^ 64 }
{
    put(out, &number.to_be_bytes());
}

/// Appends a flag as a number of 4 bytes.
fn put_flag(out: &mut ArrayVec<u8, 359>, on: bool)
    requires { array_vec_len out.old + 4 ≤ 359 }
    ensures items { out.new.items ≡ out.old.items ++ big_bytes 4 (flag_number on) }
    ensures len { array_vec_len out.new ≡ array_vec_len out.old + 4 }
{
    put_word(out, u32::from(on));
}

/// Appends a flag as one byte.
fn put_bit(out: &mut ArrayVec<u8, 359>, on: bool)
    requires { array_vec_len out.old + 1 ≤ 359 }
    ensures items { out.new.items ≡ out.old.items ++ big_bytes 1 (flag_number on) }
    ensures len { array_vec_len out.new ≡ array_vec_len out.old + 1 }
{
    put(out, &u8::from(on).to_be_bytes());
}

/// Appends x1 to x31.
#[tactic(auto, unfolding(crate::specs::Spelling::words_bytes))]
fn put_words(out: &mut ArrayVec<u8, 359>, words: &[u32; 31])
    requires { array_vec_len out.old + 124 ≤ 359 }
    ensures items { out.new.items ≡ out.old.items ++ words_bytes words.now }
    ensures len { array_vec_len out.new ≡ array_vec_len out.old + 124 }
    ensures count { length words.now ≡ 31 }
    ensures in_range { (k : ℕ) → slice_index words.now k < 2 ^ 32 }
{
    for word in words {
        put_word(out, *word);
    }
}

/// Appends the CSRs and the timer.
#[tactic(auto, unfolding(crate::specs::Spelling::csr_bytes))]
fn put_csrs(out: &mut ArrayVec<u8, 359>, csrs: &CsrFields)
    requires { array_vec_len out.old + 56 ≤ 359 }
    ensures items { out.new.items ≡ out.old.items ++ csr_bytes csrs.now }
    ensures len { array_vec_len out.new ≡ array_vec_len out.old + 56 }
    ensures in_range { AreCsrsInRange csrs.now }
{
    put_word(out, csrs.mstatus);
    put_word(out, csrs.mie);
    put_word(out, csrs.mtvec);
    put_word(out, csrs.mscratch);
    put_word(out, csrs.mepc);
    put_word(out, csrs.mcause);
    put_word(out, csrs.mtval);
    put_flag(out, csrs.msip);
    put_double(out, csrs.mtime);
    put_double(out, csrs.mtimecmp);
    put_double(out, csrs.steps);
}

/// Appends the reservation.
#[tactic(auto, unfolding(crate::specs::Spelling::reservation_bytes))]
fn put_reservation(out: &mut ArrayVec<u8, 359>, hart: &HartFields)
    requires { array_vec_len out.old + 5 ≤ 359 }
    ensures items { out.new.items ≡ out.old.items ++ reservation_bytes hart.now }
    ensures len { array_vec_len out.new ≡ array_vec_len out.old + 5 }
    ensures in_range { hart.now.address < 2 ^ 32 }
{
    put_bit(out, hart.reserved);
    put_word(out, hart.address);
}

/// Appends a queue.
#[tactic(auto, unfolding(crate::specs::Spelling::queue_bytes))]
fn put_queue(out: &mut ArrayVec<u8, 359>, queue: &QueueFields)
    requires { array_vec_len out.old + 36 ≤ 359 }
    ensures items { out.new.items ≡ out.old.items ++ queue_bytes queue.now }
    ensures len { array_vec_len out.new ≡ array_vec_len out.old + 36 }
    ensures in_range { IsQueueInRange queue.now }
{
    put_word(out, queue.num);
    put_flag(out, queue.ready);
    put_double(out, queue.desc);
    put_double(out, queue.driver);
    put_double(out, queue.device);
    put_half(out, queue.next);
    put_half(out, queue.used);
}

/// Appends the registers of a device beside its queues.
#[tactic(auto, unfolding(crate::specs::Spelling::register_bytes))]
fn put_registers(out: &mut ArrayVec<u8, 359>, device: &DeviceFields)
    requires { array_vec_len out.old + 28 ≤ 359 }
    ensures items { out.new.items ≡ out.old.items ++ register_bytes device.now }
    ensures len { array_vec_len out.new ≡ array_vec_len out.old + 28 }
    ensures in_range { IsDeviceInRange device.now }
{
    put_word(out, device.status);
    put_word(out, device.device_features_sel);
    put_double(out, device.driver_features);
    put_word(out, device.driver_features_sel);
    put_word(out, device.queue_sel);
    put_word(out, device.interrupt_status);
}

/// Appends the network device with both queues.
#[tactic(auto, unfolding(crate::specs::Spelling::network_bytes))]
fn put_network(out: &mut ArrayVec<u8, 359>, device: &DeviceFields)
    requires { array_vec_len out.old + 100 ≤ 359 }
    ensures items { out.new.items ≡ out.old.items ++ network_bytes device.now }
    ensures len { array_vec_len out.new ≡ array_vec_len out.old + 100 }
    ensures in_range { IsDeviceInRange device.now }
    ensures count { length device.now.queues ≡ 2 }
    ensures receives { IsQueueInRange (queue_at device.now 0) }
    ensures sends { IsQueueInRange (queue_at device.now 1) }
{
    put_registers(out, device);
    put_queue(out, &device.queues[0]);
    put_queue(out, &device.queues[1]);
}

/// Appends the block device with its queue.
#[tactic(auto, unfolding(crate::specs::Spelling::block_bytes))]
fn put_block(out: &mut ArrayVec<u8, 359>, device: &DeviceFields)
    requires { array_vec_len out.old + 64 ≤ 359 }
    ensures items { out.new.items ≡ out.old.items ++ block_bytes device.now }
    ensures len { array_vec_len out.new ≡ array_vec_len out.old + 64 }
    ensures in_range { IsDeviceInRange device.now }
    ensures count { length device.now.queues ≡ 2 }
    ensures serves { IsQueueInRange (queue_at device.now 0) }
{
    put_registers(out, device);
    put_queue(out, &device.queues[0]);
}

/// Appends the neighbour's MAC address.
fn put_neighbour(out: &mut ArrayVec<u8, 359>, mac: &[u8; 6])
    requires { array_vec_len out.old + 6 ≤ 359 }
    ensures items { out.new.items ≡ out.old.items ++ mac.now }
    ensures len { array_vec_len out.new ≡ array_vec_len out.old + 6 }
    ensures count { length mac.now ≡ 6 }
    ensures bytes { AreBytes mac.now }
{
    put(out, mac);
}

/// Appends the whole state.
#[tactic(auto, unfolding(crate::specs::Spelling::bytes_of))]
fn put_state(out: &mut ArrayVec<u8, 359>, fields: &StateFields)
    requires { array_vec_len out.old ≡ 0 }
    ensures items { out.new.items ≡ bytes_of fields.now }
    ensures len { array_vec_len out.new ≡ 359 }
    ensures in_range { IsInRange fields.now }
{
    put_word(out, fields.hart.pc);
    put_words(out, &fields.hart.x);
    put_csrs(out, &fields.csrs);
    put_reservation(out, &fields.hart);
    put_network(out, &fields.net);
    put_neighbour(out, &fields.neighbour);
    put_block(out, &fields.block);
}

impl StateFields {
    /// The bytes of the state, of values that a machine can have.
    pub fn to_bytes(&self) -> [u8; 359]
        requires { IsLegal self.now }
        ensures value { result ≡ bytes_of self.now }
        ensures back { fields_in result ≡ self.now }
        ensures accepted { accepts result ≡ true }
    {
        let mut out = ArrayVec::new();
        put_state(&mut out, self);
        match out.into_inner() {
            Ok(bytes) => bytes,
            Err(_) => unreachable!(),
        }
    }
}
