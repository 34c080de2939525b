ghost use Rattle.std.specs.Prelude.{◌≡◌, ◌≤◌, ◌++◌, drop, length, OnOk, OnErr};
ghost use Rattle.sha2.specs.Sha256.{sha256};
ghost use Rattle.ss_codec.specs.Joined.{joined, Extends};

use crate::Memory;
use sha2::{Digest, Sha256};

/// Appends these texts one behind another, or a part of them where memory runs out.
pub(crate) fn put(out: &mut Vec<u8>, texts: &[&[u8]]) -> Result<(), Memory>
    ensures text { OnOk result (out.new.items ≡ out.old.items ++ joined texts.now) }
    ensures part { OnErr result (Extends out.old.items out.new.items) }
{
    for text in texts {
        out.extend_from_slice(text)?;
    }
    Ok(())
}

/// Appends the digest of what stands in `out` from this place on.
pub(crate) fn put_digest(out: &mut Vec<u8>, start: usize) -> Result<(), Memory>
    requires { start ≤ length out.old.items }
    ensures digest { OnOk result (out.new.items ≡ out.old.items ++ sha256 (drop start out.old.items)) }
    ensures kept { OnErr result (out.new.items ≡ out.old.items) }
{
    let digest = Sha256::digest(&out[start..]);
    out.extend_from_slice(&digest)
}
