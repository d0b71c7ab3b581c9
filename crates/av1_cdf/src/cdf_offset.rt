// The place of a CDF in the context.
ghost use Rattle.std.specs.Prelude.{◌≡◌, IsTrue};
ghost use Rattle.av1_cdf.specs.Layout.{is_slot};

/// A CDF of the context: its first place and its length. These are always those of one CDF of the layout.
#[derive(Clone, Copy)]
pub struct CDFOffset {
    pub place: usize,
    pub len: usize,
    pub ghost is_slot: { IsTrue (is_slot place len) },
}

impl CDFOffset {
    #[inline(always)]
    pub(crate) fn new(place: usize, len: usize) -> CDFOffset
        requires { IsTrue (is_slot place len) }
        ensures place { result.place ≡ place }
        ensures len { result.len ≡ len }
    {
        CDFOffset { place, len }
    }
}
