//! Operators over the merge of their inputs.
use crate::lines::lines_of;
use crate::machine::{Machine, walked};
use crate::merged::{Arrived, Inputs, is_early};
use crate::spec::spec_of;
use ss_elem::Out;
use ss_merge::Merger;
use ss_oper::Oper;
use std::alloc::Global;
use std::test::Fail;

/// An operator with the words that say it.
#[derive(Drop)]
struct OneOperator {
    words: String,
    oper: Oper,
}

impl Machine for OneOperator {
    fn take(&mut self, x: &Arrived, out: &mut Out) -> Result<(), Fail> {
        if !is_early(&x.element) || !self.oper.counts_few() {
            return Err(Fail::new("an operator can't take it"));
        }
        self.oper.step(x.input, &x.element, &x.after, out)?;
        Ok(())
    }

    fn again(&self, alloc: Global, merger: &Merger) -> Result<OneOperator, Fail> {
        let spec = spec_of(alloc, self.words.as_str())?;
        if self.oper.held() >= 1 << 25 {
            return Err(Fail::new("no image of an operator"));
        }
        let mut image = Vec::new(alloc);
        self.oper.image(&mut image)?;
        Ok(OneOperator {
            words: String::from_str(alloc, self.words.as_str())?,
            oper: Oper::of_image(alloc, &spec, merger, &image)?,
        })
    }

    fn held(&self, alloc: Global) -> Result<String, Fail> {
        Ok(format!(in alloc; "{}", self.oper.held())?)
    }
}

/// The elements that an operator gives over the merge of its inputs.
pub(crate) fn told(alloc: Global, operator: &str, inputs: &Inputs) -> Result<Vec<u8>, Fail> {
    let spec = spec_of(alloc, operator)?;
    let fresh = OneOperator {
        words: String::from_str(alloc, operator)?,
        oper: Oper::new(alloc, &spec)?,
    };
    let walk = walked(alloc, &fresh, inputs)?;
    lines_of(alloc, walk.given.as_slice())
}
