// What every raster of one call is painted by: the judged picture, and the cells that are made ready from its registers.
ghost use Rattle.cells.specs.inner.Known.{Picture};
ghost use Rattle.std.proofs.Props.{props};
ghost use Rattle.frame.specs.inner.Depths.{depth_prop};
ghost use Rattle.frame.specs.inner.Quads.{Tables};

use registers::setting::Setting;

#[derive(Drop)]
pub struct Painter<'a> {
    pub s: Setting,
    pub video: &'a [u32],
    pub cursor: &'a [u32],
    // the cells of the border, and of the cursor's three colours
    pub pens: &'a [u16; 4],
    // the cells of all pixels of each byte
    pub table: &'a [u16; 2048],
    // at depth 8 each byte's cell at its four places
    pub quads: &'a [u64; 1024],
    ghost picture: { Picture s video.now cursor.now } by { Prim.hlevel (depth_prop, props) },
    ghost tables: { Tables s.depth table.now quads.now },
}
