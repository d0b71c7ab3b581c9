// The features of a segment.
ghost use Rattle.std.specs.Prelude.{◌≡◌, ◌-◌, ◌^◌, [], ◌∷◌, map};
ghost use Rattle.av1_geometry.specs.Segmentation.{FeatureBitsHoldTheMaxima, SignedFeaturesComeFirst};

/// A feature that a segment may have.
#[derive(Clone, Copy, Debug, PartialEq, Eq)]
pub enum SegLvl {
    /// A quantizer of its own, against the frame's.
    SEG_LVL_ALT_Q,
    /// A strength of the vertical loop filter of luma, against the frame's.
    SEG_LVL_ALT_LF_Y_V,
    /// A strength of the horizontal loop filter of luma, against the frame's.
    SEG_LVL_ALT_LF_Y_H,
    /// A strength of the loop filter of the first chroma plane, against the frame's.
    SEG_LVL_ALT_LF_U,
    /// A strength of the loop filter of the second chroma plane, against the frame's.
    SEG_LVL_ALT_LF_V,
    /// One reference for all blocks.
    SEG_LVL_REF_FRAME,
    /// No vectors and no coefficients.
    SEG_LVL_SKIP,
    /// The motion of the whole frame.
    SEG_LVL_GLOBALMV,
    /// The number of features.
    SEG_LVL_MAX,
}

/// The bits of the value of each feature, a sign aside.
pub const seg_feature_bits: [u32; SegLvl::SEG_LVL_MAX as usize] = [8, 6, 6, 6, 6, 3, 0, 0];

/// Whether the value of each feature has a sign.
pub const seg_feature_is_signed: [bool; SegLvl::SEG_LVL_MAX as usize] = [
    true, true, true, true, true, false, false, false,
];

/// The rules of the tables above, each over the whole table.
pub fn law_segmentation()
    ensures bits { FeatureBitsHoldTheMaxima }
    ensures signs { SignedFeaturesComeFirst }
{}
