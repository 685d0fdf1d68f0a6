// Rasters painted by the cell rule: what serves all of them is made ready once, then they are painted one after another.
ghost use Rattle.std.specs.Prelude.{◌≡◌, ◌*◌, ◌-◌, ◌≤◌, length};
ghost use Rattle.buffers.specs.Painted.{painted};
ghost use Rattle.cells.specs.inner.Known.{Picture};
ghost use Rattle.frame.specs.inner.Ink.{rows_cell};

use crate::inks::{pens, ready};
use crate::painter::Painter;
use crate::quads::quads;
use registers::record::Registers;
use registers::setting::Setting;
use registers::units::Rasters;

// The rasters from the first up to the end.
pub fn paint(
    out: &mut [u16],
    g: Registers,
    s: Setting,
    first: Rasters,
    end: Rasters,
    video: &[u32],
    cursor: &[u32],
)
    requires { Picture s video.now cursor.now × (s.n.0 * (end.0 - first.0) ≤ length out.old) × (first.0 ≤ end.0) }
    ensures { out.new ≡ painted out.old 0 (s.n.0 * (end.0 - first.0))
        (rows_cell g s video.now cursor.now first.0) }
{
    let mut table = [0; 2048];
    ready(&mut table, g, s.depth);
    let mut four = [0; 1024];
    quads(&mut four, &table, s.depth);
    let painter = Painter {
        s,
        video,
        cursor,
        pens: &pens(g),
        table: &table,
        quads: &four,
    };
    painter.rows(out, first, end);
}
