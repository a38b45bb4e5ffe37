//! From bytes to the values of a state.

ghost use Rattle.std.specs.Prelude.{◌≡◌, ◌+◌, ◌≤◌, IfSome, is_some, length, true};
ghost use Rattle.virt_queue.specs.Queue.{is_legal};
ghost use Rattle.machine_bytes.specs.Reading.{number_at, is_flag, words_of, csrs_of, queue_of, device_of, fields_in, has_flags, has_legal_csrs, has_legal_fields, accepts};
ghost use Rattle.machine_bytes.specs.Spelling.{bytes_of};
ghost use Rattle.machine_bytes.specs.Legal.{IsLegal};

use crate::fields::{STATE_LEN, StateFields};
use byteorder::{BigEndian, ByteOrder};
use rv_core::HartFields;
use rv_traps::CsrFields;
use virt_queue::{QueueFields, is_queue_size};
use virtio_mmio::DeviceFields;

/// A queue that isn't ready, with all fields 0.
const NO_QUEUE: QueueFields = QueueFields {
    num: 0,
    ready: false,
    desc: 0,
    driver: 0,
    device: 0,
    next: 0,
    used: 0,
};

/// The byte at a place.
#[tactic(auto, using(crate::proofs::NumberLemmas::number_of_byte))]
fn byte_at(bytes: &[u8], at: usize) -> u8
    requires { at + 1 ≤ length bytes.now }
    ensures { result ≡ number_at 1 bytes.now at }
{
    bytes[at]
}

/// The number of 2 bytes at a place.
fn half_at(bytes: &[u8], at: usize) -> u16
    requires { at + 2 ≤ length bytes.now }
    ensures { result ≡ number_at 2 bytes.now at }
{
    BigEndian::read_u16(&bytes[at..])
}

/// The number of 4 bytes at a place.
fn word_at(bytes: &[u8], at: usize) -> u32
    requires { at + 4 ≤ length bytes.now }
    ensures { result ≡ number_at 4 bytes.now at }
{
    BigEndian::read_u32(&bytes[at..])
}

/// The number of 8 bytes at a place.
fn double_at(bytes: &[u8], at: usize) -> u64
    requires { at + 8 ≤ length bytes.now }
    ensures { result ≡ number_at 8 bytes.now at }
{
    BigEndian::read_u64(&bytes[at..])
}

/// x1 to x31, of the first 124 bytes.
fn registers_of(bytes: &[u8]) -> [u32; 31]
    requires { 124 ≤ length bytes.now }
    ensures { result ≡ words_of 31 bytes.now }
{
    let mut x = [0; 31];
    for k in 0..31 {
        x[k] = word_at(bytes, 4 * k);
    }
    x
}

/// The CSRs and the timer of the first 56 bytes.
#[tactic(auto, unfolding(crate::specs::Reading::csrs_of))]
fn csrs_of(bytes: &[u8]) -> CsrFields
    requires { 56 ≤ length bytes.now }
    ensures { result ≡ csrs_of bytes.now }
{
    CsrFields {
        mstatus: word_at(bytes, 0),
        mie: word_at(bytes, 4),
        mtvec: word_at(bytes, 8),
        mscratch: word_at(bytes, 12),
        mepc: word_at(bytes, 16),
        mcause: word_at(bytes, 20),
        mtval: word_at(bytes, 24),
        msip: word_at(bytes, 28) == 1,
        mtime: double_at(bytes, 32),
        mtimecmp: double_at(bytes, 40),
        steps: double_at(bytes, 48),
    }
}

/// The queue of the first 36 bytes.
#[tactic(auto, unfolding(crate::specs::Reading::queue_of))]
fn queue_of(bytes: &[u8]) -> QueueFields
    requires { 36 ≤ length bytes.now }
    ensures { result ≡ queue_of bytes.now }
{
    QueueFields {
        num: word_at(bytes, 0),
        ready: word_at(bytes, 4) == 1,
        desc: double_at(bytes, 8),
        driver: double_at(bytes, 16),
        device: double_at(bytes, 24),
        next: half_at(bytes, 32),
        used: half_at(bytes, 34),
    }
}

/// The device whose registers are the first 28 bytes, with these queues.
#[tactic(auto, unfolding(crate::specs::Reading::device_of))]
fn device_of(bytes: &[u8], first: QueueFields, second: QueueFields) -> DeviceFields
    requires { 28 ≤ length bytes.now }
    ensures { result ≡ device_of bytes.now first second }
{
    DeviceFields {
        status: word_at(bytes, 0),
        device_features_sel: word_at(bytes, 4),
        driver_features: double_at(bytes, 8),
        driver_features_sel: word_at(bytes, 16),
        queue_sel: word_at(bytes, 20),
        interrupt_status: word_at(bytes, 24),
        queues: [first, second],
    }
}

/// The values that the bytes of a whole state stand for.
#[tactic(auto, unfolding(crate::specs::Reading::fields_in))]
fn all_fields(bytes: &[u8]) -> StateFields
    requires { length bytes.now ≡ STATE_LEN }
    ensures { result ≡ fields_in bytes.now }
{
    let mut neighbour = [0; 6];
    neighbour.copy_from_slice(&bytes[289..295]);
    StateFields {
        hart: HartFields {
            pc: word_at(bytes, 0),
            x: registers_of(&bytes[4..]),
            reserved: byte_at(bytes, 184) == 1,
            address: word_at(bytes, 185),
        },
        csrs: csrs_of(&bytes[128..]),
        net: device_of(
            &bytes[189..],
            queue_of(&bytes[217..]),
            queue_of(&bytes[253..]),
        ),
        neighbour,
        block: device_of(&bytes[295..], queue_of(&bytes[323..]), NO_QUEUE),
    }
}

/// Whether the number of 4 bytes at a place is 0 or 1.
fn has_flag(bytes: &[u8], at: usize) -> bool
    requires { at + 4 ≤ length bytes.now }
    ensures { result ≡ is_flag (number_at 4 bytes.now at) }
{
    word_at(bytes, at) <= 1
}

/// Whether msip, the reservation's byte and the three ready words are 0 or 1.
fn has_flags(bytes: &[u8]) -> bool
    requires { length bytes.now ≡ STATE_LEN }
    ensures { result ≡ has_flags bytes.now }
{
    let reserved = byte_at(bytes, 184) <= 1;
    has_flag(bytes, 156)
        & reserved
        & has_flag(bytes, 221)
        & has_flag(bytes, 257)
        & has_flag(bytes, 327)
}

/// Whether the CSRs can hold these values.
fn has_legal_csrs(csrs: &CsrFields) -> bool
    ensures { result ≡ has_legal_csrs csrs.now }
{
    csrs.is_legal()
}

/// Whether a queue is ready only with a size.
fn is_legal_queue(queue: &QueueFields) -> bool
    ensures { result ≡ is_legal queue.now }
{
    !queue.ready || is_queue_size(queue.num)
}

/// Whether the hart, the CSRs and the queues can hold these values.
#[tactic(auto, unfolding(crate::specs::Reading::has_legal_fields))]
fn has_legal_fields(fields: &StateFields) -> bool
    ensures { result ≡ has_legal_fields fields.now }
{
    fields.hart.pc % 4 == 0
        && has_legal_csrs(&fields.csrs)
        && is_legal_queue(&fields.net.queues[0])
        && is_legal_queue(&fields.net.queues[1])
        && is_legal_queue(&fields.block.queues[0])
}

/// Whether a machine accepts these bytes as a state: there are 359, each flag is 0 or 1, the hart
/// and the CSRs can hold their values, and each ready queue has a size.
#[tactic(auto, unfolding(crate::specs::Reading::accepts))]
pub fn accepts(bytes: &[u8]) -> bool
    ensures { result ≡ accepts bytes.now }
{
    bytes.len() == STATE_LEN && has_flags(bytes) && has_legal_fields(&all_fields(bytes))
}

/// The values of a state, of bytes that `accepts` tests.
pub fn fields_in(bytes: &[u8]) -> StateFields
    requires { accepts bytes.now ≡ true }
    ensures value { result ≡ fields_in bytes.now }
    ensures legal { IsLegal result }
    ensures back { bytes_of result ≡ bytes.now }
{
    all_fields(bytes)
}

impl StateFields {
    /// The values of a state, or `None` where the bytes are no state's.
    pub fn read(bytes: &[u8]) -> Option<StateFields>
        ensures accepted { is_some result ≡ accepts bytes.now }
        ensures value { IfSome result (λ fields. fields ≡ fields_in bytes.now) }
        ensures legal { IfSome result IsLegal }
        ensures back { IfSome result (λ fields. bytes_of fields ≡ bytes.now) }
    {
        if accepts(bytes) {
            Some(fields_in(bytes))
        } else {
            None
        }
    }
}
