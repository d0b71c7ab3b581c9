// The distributions of motion vectors that rav1e starts with.
ghost use Rattle.std.specs.Prelude.{◌≡◌, ◌≤◌};
ghost use Rattle.av1_cdf.specs.Vectors.{default_nmv, default_component, default_bits, of_two};

use av1_geometry::{MV_JOINTS, cdf, cdf_2d};

const CLASS0_SIZE: usize = 2;

const MV_OFFSET_BITS: usize = 10;

const MV_FP_SIZE: usize = 4;

const MV_CLASSES: usize = 11;

/// The CDFs of one component of a vector.
#[derive(Clone, Copy)]
pub struct NMVComponent {
    pub sign_cdf: [u16; 2],
    pub class0_hp_cdf: [u16; 2],
    pub hp_cdf: [u16; 2],
    pub class0_cdf: [u16; CLASS0_SIZE],
    pub bits_cdf: [[u16; 2]; MV_OFFSET_BITS],
    pub class0_fp_cdf: [[u16; MV_FP_SIZE]; CLASS0_SIZE],
    pub fp_cdf: [u16; MV_FP_SIZE],
    pub classes_cdf: [u16; MV_CLASSES],
}

/// The CDFs of vectors.
#[derive(Clone, Copy)]
pub struct NMVContext {
    pub joints_cdf: [u16; MV_JOINTS],
    pub comps: [NMVComponent; 2],
}

/// The CDFs of vectors that rav1e starts with (its `src/context/block_unit.rs`).
pub fn default_nmv_context() -> NMVContext
    ensures { result ≡ default_nmv }
{
    let component = default_component();
    NMVContext {
        joints_cdf: cdf([4096, 11264, 19328]),
        comps: [component, component],
    }
}

fn default_component() -> NMVComponent
    ensures { result ≡ default_component }
{
    NMVComponent {
        sign_cdf: of_two(128),
        class0_hp_cdf: of_two(160),
        hp_cdf: of_two(128),
        class0_cdf: of_two(216),
        bits_cdf: default_bits(),
        class0_fp_cdf: [cdf([16384, 24576, 26624]), cdf([12288, 21248, 24128])],
        fp_cdf: cdf([8192, 17408, 21248]),
        classes_cdf: cdf([
            28672, 30976, 31858, 32320, 32551, 32656, 32740, 32757, 32762, 32767,
        ]),
    }
}

fn default_bits() -> [[u16; 2]; MV_OFFSET_BITS]
    ensures { result ≡ default_bits }
{
    [
        of_two(136),
        of_two(140),
        of_two(148),
        of_two(160),
        of_two(176),
        of_two(192),
        of_two(224),
        of_two(234),
        of_two(234),
        of_two(240),
    ]
}

// The CDF of two symbols by the frequency of the first, out of 256.
fn of_two(frequency: u16) -> [u16; 2]
    requires { frequency ≤ 256 }
    ensures { result ≡ of_two frequency }
{
    cdf([128 * frequency])
}
