//! A machine whose program drives both devices, and what is no image.

use colo_base::{Frames, NoMemory};
use disk_buffers::WholeDisk;
use elf_load::ElfFault;
use guest_machine::{BootFault, Machine};
use state_wire::Guest;
use std::alloc::Global;
use std::process::Abort;
use std::test::Fail;

/// The program as another assembler gives its words, after the headers of an image. It starts both
/// devices, and asks for the disk's sector. Once that and a frame are there, it sends the frame's
/// first 14 bytes with the sector after them, and writes the frame to the sector. At last it makes
/// a descriptor the next of itself, and keeps what it reads of the card.
const IMAGE: [u32; 115] = [
    // the headers: one segment at 0x80000000
    0x464C_457F,
    0x0001_0101,
    0x0000_0000,
    0x0000_0000,
    0x00F3_0002,
    0x0000_0001,
    0x8000_0000,
    0x0000_0034,
    0x0000_0000,
    0x0000_0000,
    0x0020_0034,
    0x0000_0001,
    0x0000_0000,
    0x0000_0001,
    0x0000_0054,
    0x8000_0000,
    0x8000_0000,
    0x0000_0178,
    0x0000_0178,
    0x0000_0007,
    0x0000_0004,
    // both devices, with VERSION_1 alone, and their queues of 4
    0x1000_11B7, // lui x3, 0x10001
    0x1000_2237, // lui x4, 0x10002
    0x8000_1137, // lui x2, 0x80001
    0x8000_2537, // lui x10, 0x80002
    0x0010_0293, // addi x5, x0, 1
    0x0020_0313, // addi x6, x0, 2
    0x0001_8413, // addi x8, x3, 0
    0x1100_00EF, // jal x1, agree
    0x0000_0613, // addi x12, x0, 0
    0x0001_0693, // addi x13, x2, 0
    0x1240_00EF, // jal x1, queue
    0x0010_0613, // addi x12, x0, 1
    0x1001_0693, // addi x13, x2, 0x100
    0x1180_00EF, // jal x1, queue
    0x0002_0413, // addi x8, x4, 0
    0x0F00_00EF, // jal x1, agree
    0x0000_0613, // addi x12, x0, 0
    0x2001_0693, // addi x13, x2, 0x200
    0x1040_00EF, // jal x1, queue
    // one buffer of 2,048 bytes waits for a frame
    0x00A1_2023, // sw x10, 0(x2)
    0x0000_1737, // lui x14, 1
    0x0017_5713, // srli x14, x14, 1
    0x00E1_2423, // sw x14, 8(x2)
    0x0061_2623, // sw x6, 12(x2)
    0x0451_1123, // sh x5, 0x42(x2)
    0x0671_A823, // sw x7, 0x70(x3)
    0x0672_2823, // sw x7, 0x70(x4)
    // a request to read sector 0: header, 512 bytes at 0x80002800, status
    0x3001_0593, // addi x11, x2, 0x300
    0x20B1_2023, // sw x11, 0x200(x2)
    0x0100_0793, // addi x15, x0, 16
    0x20F1_2423, // sw x15, 0x208(x2)
    0x0001_07B7, // lui x15, 0x10
    0x0017_8793, // addi x15, x15, 1
    0x20F1_2623, // sw x15, 0x20C(x2)
    0x00E5_0833, // add x16, x10, x14
    0x2101_2823, // sw x16, 0x210(x2)
    0x2000_0593, // addi x11, x0, 512
    0x20B1_2C23, // sw x11, 0x218(x2)
    0x0002_08B7, // lui x17, 0x20
    0x0038_8913, // addi x18, x17, 3
    0x2121_2E23, // sw x18, 0x21C(x2)
    0x3101_0593, // addi x11, x2, 0x310
    0x22B1_2023, // sw x11, 0x220(x2)
    0x2251_2423, // sw x5, 0x228(x2)
    0x2261_2623, // sw x6, 0x22C(x2)
    0x2451_1123, // sh x5, 0x242(x2)
    0x0821_5583, // wait: lhu x11, 0x82(x2)
    0xFE05_8EE3, // beq x11, x0, wait
    0x2821_5583, // lhu x11, 0x282(x2)
    0xFE05_8AE3, // beq x11, x0, wait
    // what is sent: 26 bytes of the buffer, and the sector
    0x10A1_2023, // sw x10, 0x100(x2)
    0x01A0_0593, // addi x11, x0, 26
    0x10B1_2423, // sw x11, 0x108(x2)
    0x10F1_2623, // sw x15, 0x10C(x2)
    0x1101_2823, // sw x16, 0x110(x2)
    0x2000_0593, // addi x11, x0, 512
    0x10B1_2C23, // sw x11, 0x118(x2)
    0x1451_1123, // sh x5, 0x142(x2)
    0x0451_A823, // sw x5, 0x50(x3)
    // the frame is written to sector 0
    0x3051_2023, // sw x5, 0x300(x2)
    0x00C5_0593, // addi x11, x10, 12
    0x20B1_2823, // sw x11, 0x210(x2)
    0x0018_8913, // addi x18, x17, 1
    0x2121_2E23, // sw x18, 0x21C(x2)
    0x2461_1123, // sh x6, 0x242(x2)
    0x2821_5583, // written: lhu x11, 0x282(x2)
    0xFE65_9EE3, // bne x11, x6, written
    // a descriptor that is the next of itself
    0x1051_2623, // sw x5, 0x10C(x2)
    0x1461_1123, // sh x6, 0x142(x2)
    0x0451_A823, // sw x5, 0x50(x3)
    0x0701_A583, // lw x11, 0x70(x3)
    0x40B1_2023, // sw x11, 0x400(x2)
    0x0601_A583, // lw x11, 0x60(x3)
    0x40B1_2223, // sw x11, 0x404(x2)
    0x0000_006F, // halt: jal x0, halt
    // the device x8: VERSION_1 alone
    0x0030_0393, // agree: addi x7, x0, 3
    0x0674_2823, // sw x7, 0x70(x8)
    0x0254_2223, // sw x5, 0x24(x8)
    0x0254_2023, // sw x5, 0x20(x8)
    0x00B0_0393, // addi x7, x0, 11
    0x0674_2823, // sw x7, 0x70(x8)
    0x00F0_0393, // addi x7, x0, 15
    0x0000_8067, // jalr x0, x1, 0
    // queue x12 of 4, its rings at x13; no interrupts
    0x02C4_2823, // queue: sw x12, 0x30(x8)
    0x0040_0713, // addi x14, x0, 4
    0x02E4_2C23, // sw x14, 0x38(x8)
    0x08D4_2023, // sw x13, 0x80(x8)
    0x0406_8713, // addi x14, x13, 0x40
    0x08E4_2823, // sw x14, 0x90(x8)
    0x0806_8713, // addi x14, x13, 0x80
    0x0AE4_2023, // sw x14, 0xA0(x8)
    0x0454_2223, // sw x5, 0x44(x8)
    0x0456_9023, // sh x5, 0x40(x13)
    0x0000_8067, // jalr x0, x1, 0
];

/// A frame of 60 bytes to the card.
const FRAME: [u8; 60] = [
    0x52, 0x54, 0x00, 0x12, 0x34, 0x56, 0x52, 0x54, 0x00, 0xAA, 0x00, 0x01, 0x08, 0x00, 1, 2, 3, 4,
    5, 6, 7, 8, 9, 10, 11, 12, 13, 14, 15, 16, 17, 18, 19, 20, 21, 22, 23, 24, 25, 26, 27, 28, 29,
    30, 31, 32, 33, 34, 35, 36, 37, 38, 39, 40, 41, 42, 43, 44, 45, 46,
];

/// The bytes of the image.
fn image(alloc: Global) -> Result<Vec<u8>, Fail> {
    let mut bytes = Vec::new(alloc);
    for word in IMAGE {
        bytes.extend_from_slice(&word.to_le_bytes())?;
    }
    Ok(bytes)
}

/// The machine at its start, with a disk full of this byte.
fn boot(alloc: Global, byte: u8) -> Result<Machine<WholeDisk>, Fail> {
    let image = image(alloc)?;
    let disk = WholeDisk::new(alloc, &[byte; 512]).ok().ok_or("disk")?;
    let machine = Machine::boot(alloc, &image, disk, 1).ok().ok_or("boot")?;
    Ok(machine)
}

/// What is tested. No call has a clause, so that what the contracts say stands in no goal of the
/// tests.
trait Turns {
    /// The driver's start.
    fn begin(&mut self, out: &mut Frames) -> Result<(), NoMemory>;

    /// A turn that receives the frame, where the card can, and serves a request.
    fn hear(&mut self, out: &mut Frames) -> Result<(), NoMemory>;

    /// A turn that serves a request.
    fn go_on(&mut self, out: &mut Frames) -> Result<(), NoMemory>;

    fn turned(&self) -> u64;

    /// Whether the frame stands in the sector, with zeros after it.
    fn wrote_frame(&self) -> bool;

    /// Whether the card's Status had DEVICE_NEEDS_RESET, and its InterruptStatus bit 1.
    fn broke_ring(&self) -> bool;

    /// Whether so many microseconds went by, and so many steps were made.
    fn took(&self, alloc: Global, times: &[u8; 16]) -> Result<bool, Fail>;
}

impl Turns for Machine<WholeDisk> {
    fn begin(&mut self, out: &mut Frames) -> Result<(), NoMemory> {
        self.turn(10, None, 0, 200, out)
    }

    fn hear(&mut self, out: &mut Frames) -> Result<(), NoMemory> {
        if self.can_receive() {
            self.turn(5, Some(&FRAME), 1, 60, out)?;
        }
        Ok(())
    }

    fn go_on(&mut self, out: &mut Frames) -> Result<(), NoMemory> {
        self.turn(7, None, 1, 100, out)
    }

    fn turned(&self) -> u64 {
        Guest::turned(self)
    }

    fn wrote_frame(&self) -> bool {
        match self.sector(0) {
            Some(sector) => sector.starts_with(&FRAME) && sector.ends_with(&[0; 452]),
            None => false,
        }
    }

    fn broke_ring(&self) -> bool {
        match self.ram().part(0x8000_1400, 8) {
            Some(found) => found.starts_with(&[79, 0, 0, 0, 2, 0, 0, 0]),
            None => false,
        }
    }

    fn took(&self, alloc: Global, times: &[u8; 16]) -> Result<bool, Fail> {
        let mut state = Vec::new(alloc);
        self.state(&mut state)?;
        let clock = state.get(160..168).ok_or("short")?;
        let steps = state.get(176..184).ok_or("short")?;
        Ok(clock == &times[..8] && steps == &times[8..])
    }
}

/// Loads what one machine has beside its memory and its disk into another.
fn copy_state(
    alloc: Global,
    from: &Machine<WholeDisk>,
    to: &mut Machine<WholeDisk>,
) -> Result<(), NoMemory> {
    let mut state = Vec::new(alloc);
    from.state(&mut state)?;
    if to.accepts(&state) {
        to.load_state(&state)?;
    }
    Ok(())
}

/// Loads the memory of one machine into another.
fn copy_pages(from: &Machine<WholeDisk>, to: &mut Machine<WholeDisk>) {
    for k in 0..from.pages() {
        if let Some(page) = from.page(k) {
            to.load_page(k, page);
        }
    }
}

/// Loads the disk of one machine into another.
fn copy_sectors(from: &Machine<WholeDisk>, to: &mut Machine<WholeDisk>) {
    for k in 0..from.sectors() {
        if let Some(sector) = from.sector(k) {
            to.load_sector(k, sector);
        }
    }
}

/// A machine with the state of another.
fn copy_of(alloc: Global, from: &Machine<WholeDisk>) -> Result<Machine<WholeDisk>, Fail> {
    let mut other = boot(alloc, 0x22)?;
    copy_state(alloc, from, &mut other)?;
    copy_pages(from, &mut other);
    copy_sectors(from, &mut other);
    Ok(other)
}

/// Whether the frame's first bytes were sent with the sector, and nothing else.
fn sent_back(out: &Frames) -> bool {
    match out.get(0) {
        Some(sent) => {
            out.len() == 1
                && sent.len() == 526
                && sent.starts_with(&FRAME[..14])
                && sent.ends_with(&[0x11; 512])
        }
        None => false,
    }
}

/// The driver's start, the frame and the first requests.
fn check_start<R: Abort, T: Turns>(rt: &R, machine: &mut T, out: &mut Frames) -> Result<(), Fail> {
    machine.begin(out)?;
    machine.hear(out)?;
    assert!(rt; sent_back(out));
    Ok(())
}

/// The last request.
fn check_end<R: Abort, T: Turns>(rt: &R, machine: &mut T, out: &mut Frames) -> Result<(), Fail> {
    machine.go_on(out)?;
    assert!(rt; machine.wrote_frame() && machine.broke_ring());
    Ok(())
}

/// Why a machine isn't booted of the first bytes of the image.
fn fault_of(alloc: Global, count: usize) -> Result<Option<BootFault>, Fail> {
    let bytes = image(alloc)?;
    let first = bytes.as_slice().get(..count).ok_or("short")?;
    let disk = WholeDisk::new(alloc, &[0; 512]).ok().ok_or("disk")?;
    Ok(Machine::boot(alloc, first, disk, 1).err())
}

#[test]
fn a_program_drives_both_devices(rt: HostRuntime) -> Result<(), Fail> {
    let mut out = Frames::new(rt.alloc());
    let mut machine = boot(rt.alloc(), 0x11)?;
    check_start(&rt, &mut machine, &mut out)?;
    check_end(&rt, &mut machine, &mut out)
}

/// 22 microseconds and 360 steps.
const TIMES: [u8; 16] = [0, 0, 0, 0, 0, 0, 0, 22, 0, 0, 0, 0, 0, 0, 1, 104];

/// The copy's end: it made one turn of its own.
fn check_copy<R: Abort + AllocGlobal, T: Turns>(rt: &R, other: &mut T) -> Result<(), Fail> {
    check_end(rt, other, &mut Frames::new(rt.alloc()))?;
    assert_eq!(rt; other.turned(), 1);
    assert!(rt; other.took(rt.alloc(), &TIMES)?);
    Ok(())
}

#[test]
fn a_copy_runs_alike(rt: HostRuntime) -> Result<(), Fail> {
    let mut out = Frames::new(rt.alloc());
    let mut machine = boot(rt.alloc(), 0x11)?;
    check_start(&rt, &mut machine, &mut out)?;
    check_copy(&rt, &mut copy_of(rt.alloc(), &machine)?)
}

#[test]
fn what_is_no_image(rt: HostRuntime) -> Result<(), Fail> {
    let fault = fault_of(rt.alloc(), 83)?;
    assert_eq!(rt; fault, Some(BootFault::Elf(ElfFault::TABLE)));
    Ok(())
}
