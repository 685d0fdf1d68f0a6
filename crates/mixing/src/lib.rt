// One raster's cells laid over a camera's colours.
#![tactic(auto)]

mod camera;
mod lay;

ghost use Rattle.std.specs.Prelude.{◌≡◌, length};
ghost use Rattle.refusals.specs.Table.{judged, unless_refused};
ghost use Rattle.refusals.specs.Refusals.{says};
ghost use Rattle.buffers.specs.Painted.{painted};
ghost use Rattle.mixing.specs.Mix.{mix_rows, mixed_at, mix_told, mix_leaves};

use camera::first_too_large;
use lay::lay;
use refusals::{Refusal, refuse_if};
use registers::record::Registers;
use registers::units::Pixels;

// The first n places: 13, 20, or each laid.
fn judged_mix(n: Pixels, cells: &[u16], camera: &[u16], out: &mut [u16]) -> Result<(), Refusal>
    ensures told { says result ≡ judged (mix_rows n.0 cells.now camera.now (length out.old)) tt }
    ensures left { out.new ≡ unless_refused (says result) out.old (painted out.old 0 n.0 (mixed_at cells.now camera.now)) }
{
    let end = usize::from(n.0);
    refuse_if(
        cells.len().min(camera.len()).min(out.len()) < end,
        Refusal::Short,
    )?;
    let camera = &camera[..end];
    if let Some(first) = first_too_large(camera) {
        return Err(Refusal::Camera(first as u32));
    }
    lay(&mut out[..end], &cells[..end], camera);
    Ok(())
}

// The N colours of a raster's cells over the camera's, from the first place on. Refusals: the setting's, 13, 20.
#[tactic(auto, using(refusals::proofs::Told::handed_on, registers::proofs::Accepting::accept_none, crate::proofs::Calls::mix_then))]
pub fn mix(mut g: Registers, cells: &[u16], camera: &[u16], out: &mut [u16]) -> Result<(), Refusal>
    ensures told { says result ≡ mix_told g cells.now camera.now (length out.old) }
    ensures left { out.new ≡ mix_leaves g cells.now camera.now out.old }
{
    let s = g.load_and_check(&[])?;
    judged_mix(s.n, cells, camera, out)
}
