//! Joins alone.
use crate::lines::lines_of;
use crate::machine::{Machine, walked};
use crate::merged::{Arrived, Inputs};
use ss_elem::Out;
use ss_join::Join;
use ss_merge::Merger;
use std::alloc::Global;
use std::test::Fail;

/// A join, of which the keys in its image are told, or how many rows and keys it remembers.
#[derive(Drop)]
struct OneJoin {
    tells_keys: bool,
    join: Join,
}

impl OneJoin {
    fn image(&self, alloc: Global) -> Result<Vec<u8>, Fail> {
        if self.join.held() >= 1 << 25 {
            return Err(Fail::new("no image of a join"));
        }
        let mut image = Vec::new(alloc);
        self.join.image(&mut image)?;
        Ok(image)
    }
}

impl Machine for OneJoin {
    fn take(&mut self, x: &Arrived, out: &mut Out) -> Result<(), Fail> {
        if x.input >= 2 {
            return Err(Fail::new("a join has two inputs"));
        }
        self.join.step(x.input, &x.element, x.after.bounds(), out)?;
        Ok(())
    }

    fn again(&self, alloc: Global, merger: &Merger) -> Result<OneJoin, Fail> {
        let image = self.image(alloc)?;
        Ok(OneJoin {
            tells_keys: self.tells_keys,
            join: Join::of_image(alloc, merger.bounds(), &image)?,
        })
    }

    fn held(&self, alloc: Global) -> Result<String, Fail> {
        if self.tells_keys {
            keys_in(alloc, &self.image(alloc)?)
        } else {
            Ok(format!(in alloc; "{}/{}", self.join.held(), self.join.keys())?)
        }
    }
}

/// The keys of the rows in an image, each by its first byte, in the order of the rows.
fn keys_in(alloc: Global, image: &[u8]) -> Result<String, Fail> {
    let mut keys = String::new(alloc);
    for row in image[8.min(image.len())..].chunks(48) {
        if let Some(first) = row.get(16) {
            keys.push(*first as char)?;
        }
    }
    if keys.is_empty() {
        keys.push('-')?;
    }
    Ok(keys)
}

/// The rows that a join gives over its inputs, or what it remembers behind each element.
pub(crate) fn told(alloc: Global, inputs: &Inputs, asked: &str) -> Result<Vec<u8>, Fail> {
    let fresh = OneJoin {
        tells_keys: asked == "keys",
        join: Join::new(alloc),
    };
    let walk = walked(alloc, &fresh, inputs)?;
    match asked {
        "alone" => lines_of(alloc, walk.given.as_slice()),
        _ => Ok(walk.held.as_bytes().to_vec(alloc)?),
    }
}
