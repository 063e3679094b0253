//! The texts of a batch, one after another, without memory.

ghost use Rattle.std.specs.Prelude.{◌≡◌, option_map};
ghost use Rattle.bk_tx.specs.Reading.{text_at};

use bk_base::Fields;

/// The next text of a batch.
#[tactic(auto, unfolding(bk_tx::specs::Reading::text_at))]
pub(crate) fn next_text<'a>(texts: &mut Fields<'a>) -> Option<&'a [u8]>
    ensures { option_map (λ text. (text.now, texts.new)) result ≡ text_at texts.old }
{
    let len = texts.u16()?;
    texts.take(usize::from(len))
}
