//! The bus of the hart: memory, the core-local interruptor and the registers of two devices.

ghost use Rattle.std.specs.Prelude.{◌≡◌, ◌+◌, ◌<◌, ◌^◌, IsTrue};
ghost use Rattle.virtio_mmio.specs.Registers.{write_register, write_event};
ghost use Rattle.rv_platform.specs.Bus.{is_at, is_word, load_device, load_register, stores_register, store_register, write_network, write_block, board_acts};
ghost use Rattle.rv_platform.specs.BusLaws.{refused_store, taken_store, same_word};
ghost use Rattle.rv_platform.specs.Step.{is_raised};

use crate::clint::Clint;
use colo_base::NoMemory;
use page_track::Ram;
use rv_core::Bus;
use virtio_blk::Blk;
use virtio_mmio::{Event, Regs};
use virtio_net::Net;

/// Where the registers of the network card begin.
const NETWORK: u32 = 0x1000_1000;
/// Where those of the block device begin.
const BLOCK: u32 = 0x1000_2000;
/// The number of the queue by which the network card sends.
const SEND_QUEUE: u32 = 1;

/// What the hart reaches: memory, the core-local interruptor, a network card and a block device.
///
/// `touched` says that a register was stored to, and `notified` that the driver notified the send
/// queue of the network card, since the two were last cleared.
#[derive(Drop)]
pub struct Board {
    pub ram: Ram,
    pub clint: Clint,
    pub net: Net,
    pub blk: Blk,
    pub touched: bool,
    pub notified: bool,
}

/// Whether an address is one of the 4,096 of the device that begins at `base`.
fn is_at(base: u32, addr: u32) -> bool
    requires { base < 2 ^ 31 }
    ensures { result ≡ is_at base addr }
{
    base <= addr && addr < base + 0x1000
}

/// Whether an access is an aligned one of 4 bytes.
fn is_word(addr: u32, width: u32) -> bool
    ensures { result ≡ is_word addr width }
{
    width == 4 && addr % 4 == 0
}

/// What a device answers to a load at an offset of its registers.
fn load_device(regs: &Regs, offset: u32, width: u32) -> Option<u32>
    ensures { result ≡ load_device regs.now offset width }
{
    if let Some(value) = regs.config(offset, width) {
        return Some(value);
    }
    if is_word(offset, width) {
        Some(regs.read(offset))
    } else {
        None
    }
}

impl Board {
    /// Whether a device asks for an interrupt.
    pub fn is_raised(&self) -> bool
        ensures { result ≡ is_raised self.now.net self.now.blk }
    {
        self.net.regs().interrupt() != 0 || self.blk.regs().interrupt() != 0
    }

    /// A load that isn't in memory.
    #[tactic(auto, unfolding(crate::specs::Bus::load_register))]
    #[inline(never)]
    fn load_register(&self, addr: u32, width: u32) -> Option<u32>
        ensures { result ≡ load_register self.now addr width }
    {
        if is_at(NETWORK, addr) {
            load_device(self.net.regs(), addr - NETWORK, width)
        } else if is_at(BLOCK, addr) {
            load_device(self.blk.regs(), addr - BLOCK, width)
        } else {
            self.clint.load(addr, width)
        }
    }

    /// Writes a register of the network card. A notify of its send queue is remembered.
    fn write_network(&mut self, offset: u32, value: u32)
        ensures { self.new ≡ write_network self.old offset value }
    {
        self.touched = true;
        if let Event::Notify(queue) = self.net.write(offset, value) {
            self.notified = queue == SEND_QUEUE || self.notified;
        }
    }

    /// Writes a register of the block device.
    fn write_block(&mut self, offset: u32, value: u32)
        ensures { self.new ≡ write_block self.old offset value }
    {
        self.touched = true;
        self.blk.regs_mut().write(offset, value);
    }

    /// A store that isn't in memory.
    #[tactic(auto, unfolding(crate::specs::Bus::stores_register, crate::specs::Bus::store_register))]
    #[inline(never)]
    fn store_register(&mut self, addr: u32, width: u32, value: u32) -> bool
        ensures taken { result ≡ stores_register addr width }
        ensures after { self.new ≡ store_register self.old addr width value }
    {
        if is_at(NETWORK, addr) {
            if !is_word(addr, width) {
                return false;
            }
            self.write_network(addr - NETWORK, value);
            return true;
        }
        if is_at(BLOCK, addr) {
            if !is_word(addr, width) {
                return false;
            }
            self.write_block(addr - BLOCK, value);
            return true;
        }
        if !self.clint.store(addr, width, value) {
            return false;
        }
        self.touched = true;
        true
    }
}

impl Bus for Board {
    ghost acts = { board_acts };

    ghost refused = { refused_store };

    ghost ram = { taken_store };

    ghost same_word = { same_word };

    #[tactic(auto, unfolding(crate::specs::Bus::board_fetched))]
    #[inline(always)]
    fn fetch(&mut self, addr: u32) -> Option<u32> {
        self.ram.load(addr, 4)
    }

    #[tactic(auto, unfolding(crate::specs::Bus::board_loaded))]
    #[inline(always)]
    fn load(&mut self, addr: u32, width: u32) -> Option<u32> {
        match self.ram.load(addr, width) {
            Some(value) => Some(value),
            None => self.load_register(addr, width),
        }
    }

    #[tactic(auto, unfolding(crate::specs::Bus::board_stores, crate::specs::Bus::board_stored, page_track::specs::Memory::with_number))]
    #[inline(always)]
    fn store(&mut self, addr: u32, width: u32, value: u32) -> Result<bool, NoMemory> {
        if self.ram.store(addr, width, value) {
            return Ok(true);
        }
        Ok(self.store_register(addr, width, value))
    }
}
