// Planes and places in them.

/// How often the sides of a plane are halved against luma.
#[derive(Clone, Copy, Debug, PartialEq, Eq)]
pub struct PlaneConfig {
    pub xdec: usize,
    pub ydec: usize,
}

/// A place in a plane, in samples.
#[derive(Clone, Copy, Debug, Default, PartialEq, Eq)]
pub struct PlaneOffset {
    pub x: isize,
    pub y: isize,
}
