// The settings that a line begins with.
use std::fmt;

// A tree's settings: window, fan-out, levels and nominal length.
#[derive(Clone, Copy)]
pub struct Shape {
    pub window: u64,
    pub fan_out: u64,
    pub levels: u64,
    pub nominal: u64,
}

impl Shape {
    pub fn new(window: u64, fan_out: u64, levels: u64, nominal: u64) -> Shape {
        Shape {
            window,
            fan_out,
            levels,
            nominal,
        }
    }

    // The settings with a sketch of that width.
    pub fn wide(self, width: u64) -> Settings {
        Settings { shape: self, width }
    }

    // Cuts a string into its tree.
    pub fn cut(self, string: &[u8], nodes: &mut [u8]) -> u64 {
        rcds::rcds_tree(
            self.window,
            self.fan_out,
            self.levels,
            self.nominal,
            string,
            nodes,
        )
    }
}

impl fmt::Display for Shape {
    fn fmt<W: fmt::Write>(&self, f: &mut fmt::Formatter<W>) -> fmt::Result {
        let Shape {
            window,
            fan_out,
            levels,
            nominal,
        } = *self;
        write!(f, "{window} {fan_out} {levels} {nominal}")
    }
}

// An end's settings: its tree's, and the width of its sketch.
#[derive(Clone, Copy)]
pub struct Settings {
    pub shape: Shape,
    pub width: u64,
}

impl fmt::Display for Settings {
    fn fmt<W: fmt::Write>(&self, f: &mut fmt::Formatter<W>) -> fmt::Result {
        write!(f, "{} {}", self.shape, self.width)
    }
}
