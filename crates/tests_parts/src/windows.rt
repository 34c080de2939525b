//! Windows alone.
use crate::lines::lines_of;
use crate::machine::{Machine, walked};
use crate::merged::{Arrived, Inputs, is_early};
use crate::spec::{Settings, has_whole_hops, settings_of};
use ss_elem::Out;
use ss_merge::Merger;
use ss_window::Window;
use std::alloc::Global;
use std::test::Fail;

/// A window with its settings.
#[derive(Drop)]
struct OneWindow {
    settings: Settings,
    window: Window,
}

impl Machine for OneWindow {
    fn take(&mut self, x: &Arrived, out: &mut Out) -> Result<(), Fail> {
        if !is_early(&x.element) || !self.window.counts_few() {
            return Err(Fail::new("a window can't take it"));
        }
        self.window.step(&x.element, x.after.low(), out)?;
        Ok(())
    }

    fn again(&self, alloc: Global, merger: &Merger) -> Result<OneWindow, Fail> {
        let s = self.settings;
        if !has_whole_hops(s) || self.window.held() >= 1 << 25 {
            return Err(Fail::new("no image of a window"));
        }
        let mut image = Vec::new(alloc);
        self.window.image(&mut image)?;
        let low = merger.low();
        let window = Window::of_image(alloc, s.size, s.hop, s.agg, s.of, low, &image)?;
        Ok(OneWindow {
            settings: s,
            window,
        })
    }

    /// How many panes and how many entries.
    fn held(&self, alloc: Global) -> Result<String, Fail> {
        Ok(format!(in alloc; "{}/{}", self.window.panes(), self.window.held())?)
    }
}

/// The rows that a window gives over its input, or what it holds behind each element.
pub(crate) fn told(
    alloc: Global,
    operator: &str,
    inputs: &Inputs,
    asked: &str,
) -> Result<Vec<u8>, Fail> {
    let settings = settings_of(operator)?;
    if !has_whole_hops(settings) {
        return Err(Fail::new("no window"));
    }
    let fresh = OneWindow {
        settings,
        window: Window::new(
            alloc,
            settings.size,
            settings.hop,
            settings.agg,
            settings.of,
        ),
    };
    let walk = walked(alloc, &fresh, inputs)?;
    match asked {
        "held" => Ok(walk.held.as_bytes().to_vec(alloc)?),
        _ => lines_of(alloc, walk.given.as_slice()),
    }
}
