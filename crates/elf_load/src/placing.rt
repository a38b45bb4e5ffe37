//! The segments to be loaded, at their places in memory.

ghost use Rattle.std.specs.Prelude.{◌≡◌, ◌+◌, ◌*◌, ◌≤◌, length, false, fold};
ghost use Rattle.std.specs.List.{list_any};
ghost use Rattle.elf_load.specs.Elf.{HasTable, table_place, table_count, segments};
ghost use Rattle.elf_load.specs.Boot.{overruns, lies_outside, place_segment};

use crate::file::{count, header};
use crate::header::ProgramHeader;
use crate::segments::RAM_BASE;

/// Puts each segment to be loaded at its place in memory, in the order of the table.
#[tactic(auto, using(crate::proofs::TableLemmas::up_to_none, crate::proofs::TableLemmas::up_to_all))]
pub(crate) fn place_segments(bytes: &[u8], memory: &mut [u8])
    requires small { length memory.old ≤ 67108864 }
    requires long { 52 ≤ length bytes.now }
    requires table { HasTable bytes.now }
    requires no_overrun { list_any (overruns (length bytes.now)) (segments bytes.now) ≡ false }
    requires inside { list_any (lies_outside (length memory.old)) (segments bytes.now) ≡ false }
    ensures { memory.new ≡ fold (place_segment bytes.now) memory.old (segments bytes.now) }
{
    for k in 0..count(bytes) {
        let segment = header(bytes, k);
        if segment.is_load() {
            place(bytes, &segment, memory);
        }
    }
}

/// Puts a segment at its place in memory: its bytes of the file, then zeros.
#[tactic(auto, unfolding(crate::specs::Boot::place_segment, shared_definitions::specs::Overwrite::overwrite))]
fn place(bytes: &[u8], segment: &ProgramHeader, memory: &mut [u8])
    requires small { length memory.old ≤ 67108864 }
    requires no_overrun { overruns (length bytes.now) segment.now ≡ false }
    requires inside { lies_outside (length memory.old) segment.now ≡ false }
    ensures { memory.new ≡ place_segment bytes.now memory.old segment.now }
{
    if segment.p_memsz == 0 {
        return;
    }
    let start = segment.p_paddr as usize - RAM_BASE;
    let end = start + segment.p_memsz as usize;
    let content = segment.content(bytes);
    let zeros = start + content.len();
    memory[start..zeros].copy_from_slice(content);
    memory[zeros..end].fill(0);
}
