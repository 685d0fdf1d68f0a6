// Single values: a pixel's colour, a colour's grey, the sync pin.
ghost use Rattle.std.specs.Prelude.{◌≡◌};
ghost use Rattle.colours.specs.Grey.{grey_of};
ghost use Rattle.colours.specs.Pin.{pin_of};
ghost use Rattle.vombelishi.specs.Code.{answer_code, part_by};
ghost use Rattle.vombelishi.specs.Pictures.{colour_call, colour_part, supremacy_part};

// The 12-bit colour of a logical pixel, and 1 where it has supremacy, else 0; 13 for slices shorter than 64.
#[unsafe(no_mangle)]
pub extern "C" fn vom_colour(
    values: &[u32],
    written: &[u8],
    depth: u8,
    pixel: u8,
    colour: &mut u16,
    supremacy: &mut u8,
) -> u64
    ensures { (result ≡ answer_code (colour_call values.now written.now depth pixel))
        × (colour.new ≡ part_by (colour_call values.now written.now depth pixel) colour_part colour.old)
        × (supremacy.new
        ≡ part_by (colour_call values.now written.now depth pixel) supremacy_part supremacy.old) }
{
    vombelishi::levels::vom_colour(values, written, depth, pixel, colour, supremacy)
}

#[unsafe(no_mangle)]
pub extern "C" fn vom_grey(colour: u16) -> u8
    ensures { result ≡ grey_of colour }
{
    vombelishi::levels::vom_grey(colour)
}

// 0 low, 1 high.
#[unsafe(no_mangle)]
pub extern "C" fn vom_pin(code: u8, control: u32) -> u8
    ensures { result ≡ pin_of code control }
{
    vombelishi::levels::vom_pin(code, control)
}
