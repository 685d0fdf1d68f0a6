// A raster's cells over a camera's colours.
ghost use Rattle.std.specs.Prelude.{◌≡◌, length};
ghost use Rattle.vombelishi.specs.Code.{answer_code};
ghost use Rattle.vombelishi.specs.Pictures.{mix_call, mix_call_leaves};

use crate::code::{answered, refused};
use crate::record::Lists;

// The N mixed colours; 13 for slices shorter than 64, then the setting's, 13, 20.
#[tactic(auto, unfolding(crate::specs::Pictures::mix_call, crate::specs::Pictures::mix_call_leaves))]
pub fn vom_mix(
    values: &[u32],
    written: &[u8],
    cells: &[u16],
    camera: &[u16],
    mixed: &mut [u16],
) -> u64
    ensures { (result ≡ answer_code (mix_call values.now written.now cells.now camera.now (length mixed.old)))
        × (mixed.new
        ≡ mix_call_leaves values.now written.now cells.now camera.now mixed.old) }
{
    match Lists::of(values, written) {
        Err(why) => refused(why),
        Ok(lists) => answered(mixing::mix(lists.registers(), cells, camera, mixed)),
    }
}
