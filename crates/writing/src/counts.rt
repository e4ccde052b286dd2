// The clipped counts of the layout: two to a byte.
ghost use Rattle.std.specs.Prelude.{◌≡◌, ◌*◌, ◌≤◌, length};
ghost use Rattle.placing.specs.Worked.{nth};
ghost use Rattle.writing.specs.Counts.{clipped_bytes};

use settings::counts::{ClippedCount, TrueCount};

// "bucket b in byte b / 2, an even b in the low four bits"
pub fn write_clipped(top: usize, clipped: &mut [u8], counts: &[u16])
    requires top { top ≤ 15 }
    requires pairs { 2 * length clipped.old ≤ length counts.now }
    ensures { clipped.new ≡ clipped_bytes top (nth counts.now) (length clipped.old) }
{
    for (i, byte) in clipped.iter_mut().enumerate() {
        let low = TrueCount::of_number(counts[2 * i]).clip(top);
        let high = TrueCount::of_number(counts[2 * i + 1]).clip(top);
        *byte = ClippedCount::byte_of(low, high);
    }
}
