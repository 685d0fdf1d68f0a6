// Where a raster's words stand, and the mark count.
ghost use Rattle.std.specs.Prelude.{◌≡◌, length};
ghost use Rattle.vombelishi.specs.Code.{answer_code, stored_by, cell_by};
ghost use Rattle.vombelishi.specs.Pictures.{words_call, marks_call};

// The first word of raster y and how many there are: 0 and 0 where it is not displayed.
// 13 for slices shorter than 64, then the setting's, 11 for the video words, 12, then 13 for `place`.
#[unsafe(no_mangle)]
pub extern "C" fn vom_raster_words(
    values: &[u32],
    written: &[u8],
    video: &[u32],
    y: u16,
    place: &mut [u64],
) -> u64
    ensures { (result ≡ answer_code (words_call values.now written.now video.now y (length place.old)))
        × (place.new
        ≡ stored_by (words_call values.now written.now video.now y (length place.old)) place.old) }
{
    vombelishi::rasters::vom_raster_words(values, written, video, y, place)
}

// The mark count; 13 for slices shorter than 64, then the setting's, 11.
#[unsafe(no_mangle)]
pub extern "C" fn vom_marks(
    values: &[u32],
    written: &[u8],
    video: &[u32],
    cursor: &[u32],
    threshold: u8,
    count: &mut u64,
) -> u64
    ensures { (result ≡ answer_code (marks_call values.now written.now video.now cursor.now threshold))
        × (count.new
        ≡ cell_by (marks_call values.now written.now video.now cursor.now threshold) count.old) }
{
    vombelishi::rasters::vom_marks(values, written, video, cursor, threshold, count)
}
