// The frame: its greys and the draw target that they are, filled where the target shows them.
ghost use Rattle.std.specs.Prelude.{length};
ghost use Rattle.geometry.specs.Canvas.{Canvas};

use crate::filling::fill_area;
use crate::{DrawTarget, Rectangle};

// A frame that is drawn on: its greys, row by row, and its sides with the area in which they may change.
#[derive(Drop)]
pub struct Frame<'a> {
    pub greys: &'a mut [u8],
    pub target: DrawTarget,
    ghost canvas: { Canvas target (length greys.now) },
}

impl<'a> Frame<'a> {
    ghost use Rattle.std.specs.Prelude.{◌≡◌, length, Some};
    ghost use Rattle.geometry.specs.Layer.{filled};
    ghost use Rattle.geometry.specs.Canvas.{Canvas};
    ghost use Rattle.geometry.specs.Painted.{Painted};

    // The frame of these greys.
    pub fn new(greys: &'a mut [u8], target: DrawTarget) -> Frame<'a>
        requires { Canvas target (length greys.old) }
        ensures same_greys { result.greys.ghost_name ≡ greys.entry.ghost_name }
        ensures greys_value { result.greys.now ≡ greys.old }
        ensures target_value { result.target ≡ target }
    {
        Frame { greys, target }
    }

    // Fills what the target shows of an area.
    pub fn fill_solid(&mut self, area: Rectangle, grey: u8)
        ensures { Painted self.old (filled area (Some grey)) self.new }
    {
        if area.is_empty() {
            return;
        }
        let shown = self.target.clip_area.intersection(area);
        if shown.is_empty() {
            return;
        }
        let part = shown.on_frame();
        let width = self.target.width;
        let greys = &mut *self.greys;
        fill_area(greys, width, part, grey);
    }

    // The same with a colour that may be unset: then nothing is filled.
    pub fn fill(&mut self, area: Rectangle, color: Option<u8>)
        ensures { Painted self.old (filled area color) self.new }
    {
        if let Some(grey) = color {
            self.fill_solid(area, grey);
        }
    }
}
