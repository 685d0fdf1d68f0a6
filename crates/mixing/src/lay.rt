// Cells over camera colours, place by place.
ghost use Rattle.std.specs.Prelude.{◌≡◌, EachIndex, length, slice_index};
ghost use Rattle.mixing.specs.Mix.{shown_over, mixed_at};

use colours::apart::Apart;

// What a cell shows over a camera's colour: of border, display and cursor with supremacy the camera's, else its own.
fn shown_over(cell: u16, camera: u16) -> u16
    ensures { result ≡ shown_over cell camera }
{
    let own = Apart::of(cell);
    let code = cell / 8192;
    if own.supremacy & (4 <= code) & (code <= 6) {
        return camera;
    }
    own.colour
}

// Both lists and the answer have as many places.
pub fn lay(out: &mut [u16], cells: &[u16], camera: &[u16])
    requires { (length cells.now ≡ length out.old) × (length camera.now ≡ length out.old) }
    ensures { EachIndex out.new (λ k. slice_index out.new k ≡ mixed_at cells.now camera.now k) }
{
    for (k, place) in out.iter_mut().enumerate() {
        *place = shown_over(cells[k], camera[k]);
    }
}
