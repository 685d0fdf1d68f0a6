// The printer's text of a plate file, whole.
ghost use Rattle.std.specs.Prelude.{◌≡◌, length};
ghost use Rattle.vombelishi.specs.Code.{answer_code, cell_by};
ghost use Rattle.vombelishi.specs.Texts.{text_call, text_leaves};

// The text of a plate file, refused or not, and its length; 13 for `text`. A text has at least a byte.
#[unsafe(no_mangle)]
pub extern "C" fn vom_text(file: &[u8], text: &mut [u8], size: &mut u64) -> u64
    ensures { (result ≡ answer_code (text_call file.now (length text.old)))
        × (text.new ≡ text_leaves file.now text.old)
        × (size.new ≡ cell_by (text_call file.now (length text.old)) size.old) }
{
    vombelishi::texts::vom_text(file, text, size)
}
