// What every picture call judges first: the setting, then whether there are as many words as its frame needs.
#![tactic(auto)]

ghost use Rattle.std.specs.Prelude.{◌≡◌};
ghost use Rattle.refusals.specs.Refusals.{says};
ghost use Rattle.cells.specs.Picture.{words_wrong, picture_told};

use refusals::{Refusal, refuse_if};
use registers::record::Registers;
use registers::setting::Setting;

// Whether the video or the cursor words are not as many as the setting needs: 11.
pub fn words_wrong(s: Setting, video: &[u32], cursor: &[u32]) -> bool
    ensures { result ≡ words_wrong s video.now cursor.now }
{
    (video.len() as u64 != s.video_words()) | (cursor.len() as u64 != s.cursor_words())
}

// The setting of a record whose picture has the words it needs. Refusals: the setting's, 11.
#[tactic(auto, using(refusals::proofs::Told::handed_on, registers::proofs::Accepting::accept_none, crate::proofs::Pictures::picture_then))]
pub fn judge(mut g: Registers, video: &[u32], cursor: &[u32]) -> Result<Setting, Refusal>
    ensures { says result ≡ picture_told g video.now cursor.now }
{
    let s = g.load_and_check(&[])?;
    refuse_if(words_wrong(s, video, cursor), Refusal::WordCount)?;
    Ok(s)
}
