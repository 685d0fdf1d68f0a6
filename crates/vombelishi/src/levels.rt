// Single values: a pixel's colour, a colour's grey, the sync pin.
ghost use Rattle.std.specs.Prelude.{◌≡◌};
ghost use Rattle.colours.specs.Grey.{grey_of};
ghost use Rattle.colours.specs.Pin.{pin_of};
ghost use Rattle.vombelishi.specs.Code.{answer_code, part_by};
ghost use Rattle.vombelishi.specs.Pictures.{colour_call, colour_part, supremacy_part};

use crate::code::refused;
use crate::record::Lists;

// The 12-bit colour of a logical pixel, and 1 where it has supremacy, else 0; 13 for slices shorter than 64.
#[tactic(auto, unfolding(crate::specs::Pictures::colour_call))]
pub fn vom_colour(
    values: &[u32],
    written: &[u8],
    depth: u8,
    pixel: u8,
    colour: &mut u16,
    supremacy: &mut u8,
) -> u64
    ensures { (result ≡ answer_code (colour_call values.now written.now depth pixel))
        × (colour.new ≡ part_by (colour_call values.now written.now depth pixel) colour_part colour.old)
        × (supremacy.new
        ≡ part_by (colour_call values.now written.now depth pixel) supremacy_part supremacy.old) }
{
    match Lists::of(values, written) {
        Err(why) => refused(why),
        Ok(lists) => {
            let shown = colours::colour(lists.registers(), depth, pixel);
            *colour = shown.colour;
            *supremacy = u8::from(shown.supremacy);
            0
        },
    }
}

pub fn vom_grey(colour: u16) -> u8
    ensures { result ≡ grey_of colour }
{
    colours::grey(colour)
}

// 0 low, 1 high.
pub fn vom_pin(code: u8, control: u32) -> u8
    ensures { result ≡ pin_of code control }
{
    colours::pin(code, control)
}
