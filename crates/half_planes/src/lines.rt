ghost use Rattle.std.specs.Prelude.{◌≡◌, List, length, ◌<◌, ◌^◌, slice_get, Some};
ghost use Rattle.plane.specs.declared.point.Line.{Line as AnyLine};

use exact_number::Whole;
use plane::Line;

/// A list of lines, each of which may be formed as it's asked for. A line stands for its open half-plane, a·x + b·y + c > 0.
pub trait Lines {
    type Ring: Whole;

    // the list
    ghost lines: { Self → List (AnyLine Self.Ring) };

    /// How many there are.
    fn count(&self) -> u32
        ensures { result ≡ length (lines self.now) };

    /// The line at a place in the list.
    fn line(&self, place: u32) -> Line<Self::Ring>
        requires { place < length (lines self.now) }
        ensures { slice_get (lines self.now) place ≡ Some result };
}

/// The lines of a slice.
#[derive(Drop)]
pub struct LineSlice<'a, W> {
    pub lines: &'a [Line<W>],
    pub ghost short: { length lines.now < 2 ^ 32 },
}

impl<'a, W: Whole> LineSlice<'a, W> {
    pub fn new(lines: &'a [Line<W>]) -> LineSlice<'a, W>
        requires { length lines.now < 2 ^ 32 }
        ensures { result.lines.now ≡ lines.now }
    {
        LineSlice { lines }
    }
}

impl<'a, W: Whole> Lines for LineSlice<'a, W> {
    type Ring = W;

    ghost lines = { λ s. s.lines.now };

    fn count(&self) -> u32 {
        self.lines.len() as u32
    }

    fn line(&self, place: u32) -> Line<W> {
        self.lines[place as usize]
    }
}
