// A picture that is not refused, and the cells of its rasters.
ghost use Rattle.std.specs.Prelude.{◌≡◌, ◌<◌, MatchResult};
ghost use Rattle.buffers.specs.Values.{values_from};
ghost use Rattle.refusals.specs.Table.{given};
ghost use Rattle.refusals.specs.Refusals.{refusal};
ghost use Rattle.cells.specs.Picture.{picture_told};
ghost use Rattle.frame.specs.Frame.{raster_cell};

use cells::judge;
use refusals::Refusal;
use registers::record::Registers;
use registers::setting::Setting;
use registers::units::Rasters;

// A record and its lists, with the setting that they are accepted with.
#[derive(Clone, Copy)]
pub struct Picture<'a> {
    pub g: Registers,
    pub s: Setting,
    pub video: &'a [u32],
    pub cursor: &'a [u32],
    ghost accepted: { picture_told g video.now cursor.now ≡ given s },
}

impl<'a> Picture<'a> {
    pub fn of(g: Registers, video: &'a [u32], cursor: &'a [u32]) -> Result<Picture<'a>, Refusal>
        ensures { MatchResult result
            (λ p. (p.g ≡ g) × (p.video.now ≡ video.now) × (p.cursor.now ≡ cursor.now))
            (λ why. picture_told g video.now cursor.now ≡ refusal why) }
    {
        let s = judge(g, video, cursor)?;
        Ok(Picture {
            g,
            s,
            video,
            cursor,
        })
    }

    // The cells of raster y, in lent memory.
    pub fn raster<'b>(&self, y: Rasters, room: &'b mut [u16; 2048]) -> &'b [u16]
        requires { y.0 < self.now.s.v.0 }
        ensures { result.now ≡ values_from (raster_cell self.now.g self.now.s self.now.video.now self.now.cursor.now y.0) 0 self.now.s.n.0 }
    {
        frame::raster(self.g, self.video, self.cursor, y, room).unwrap();
        &room[..usize::from(self.s.n.0)]
    }
}
