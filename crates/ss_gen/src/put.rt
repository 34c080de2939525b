ghost use Rattle.std.specs.Prelude.{◌≡◌, ◌++◌, OnErr, OnOk};
ghost use Rattle.ss_gen.specs.Texts.{Extends, texts_joined};

use crate::Memory;

/// Appends these texts one behind another, or some of them where memory runs out.
pub(crate) fn put(out: &mut Vec<u8>, texts: &[&[u8]]) -> Result<(), Memory>
    ensures text { OnOk result (out.new.items ≡ out.old.items ++ texts_joined texts.now) }
    ensures part { OnErr result (Extends out.old.items out.new.items) }
{
    for text in texts {
        out.extend_from_slice(text)?;
    }
    Ok(())
}
