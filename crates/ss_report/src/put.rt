ghost use Rattle.std.specs.Prelude.{◌≡◌, ◌++◌, OnOk, OnErr};
ghost use Rattle.ss_report.specs.Joined.{joined};

use crate::Memory;

/// Appends these texts one behind another, or nothing.
pub(crate) fn put(out: &mut Vec<u8>, texts: &[&[u8]]) -> Result<(), Memory>
    ensures text { OnOk result (out.new.items ≡ out.old.items ++ joined texts.now) }
    ensures kept { OnErr result (out.new.items ≡ out.old.items) }
{
    let length = out.len();
    for text in texts {
        match out.extend_from_slice(text) {
            Ok(()) => (),
            Err(fault) => {
                out.truncate(length);
                return Err(fault);
            }
        }
    }
    Ok(())
}
