// CDFs from tables of cumulated frequencies, whose numbers fall from 32768 and end with a count of 0.
ghost use Rattle.std.specs.Prelude.{◌≡◌, ◌<◌, All, map};
ghost use Rattle.av1_geometry.specs.Tables.{complemented, AtMostOne};

/// 32768 minus each number, and then zeros.
pub fn cdf<const VARS: usize, const CDF_LEN: usize>(vars: [u16; VARS]) -> [u16; CDF_LEN]
    requires room { VARS < CDF_LEN }
    requires at_most { AtMostOne vars }
    ensures { result ≡ complemented CDF_LEN vars.entry }
{
    let mut out = [0; CDF_LEN];
    for i in 0..VARS {
        out[i] = 32768 - vars[i];
    }
    out
}

/// `cdf` of each list.
pub fn cdf_2d<const VARS: usize, const CDF_LEN: usize, const N_2D: usize>(
    vars: [[u16; VARS]; N_2D],
) -> [[u16; CDF_LEN]; N_2D]
    requires room { VARS < CDF_LEN }
    requires at_most { All AtMostOne vars }
    ensures { result ≡ map (complemented CDF_LEN) vars.entry }
{
    let mut out = [[0; CDF_LEN]; N_2D];
    for i in 0..N_2D {
        out[i] = cdf(vars[i]);
    }
    out
}

/// `cdf` of each innermost list.
pub fn cdf_3d<const VARS: usize, const CDF_LEN: usize, const N_2D: usize, const N_3D: usize>(
    vars: [[[u16; VARS]; N_2D]; N_3D],
) -> [[[u16; CDF_LEN]; N_2D]; N_3D]
    requires room { VARS < CDF_LEN }
    requires at_most { All (All AtMostOne) vars }
    ensures { result ≡ map (map (complemented CDF_LEN)) vars.entry }
{
    let mut out = [[[0; CDF_LEN]; N_2D]; N_3D];
    for i in 0..N_3D {
        out[i] = cdf_2d(vars[i]);
    }
    out
}

/// `cdf` of each innermost list.
pub fn cdf_4d<
    const VARS: usize,
    const CDF_LEN: usize,
    const N_2D: usize,
    const N_3D: usize,
    const N_4D: usize,
>(vars: [[[[u16; VARS]; N_2D]; N_3D]; N_4D]) -> [[[[u16; CDF_LEN]; N_2D]; N_3D]; N_4D]
    requires room { VARS < CDF_LEN }
    requires at_most { All (All (All AtMostOne)) vars }
    ensures { result ≡ map (map (map (complemented CDF_LEN))) vars.entry }
{
    let mut out = [[[[0; CDF_LEN]; N_2D]; N_3D]; N_4D];
    for i in 0..N_4D {
        out[i] = cdf_3d(vars[i]);
    }
    out
}

/// `cdf` of each innermost list.
pub fn cdf_5d<
    const VARS: usize,
    const CDF_LEN: usize,
    const N_2D: usize,
    const N_3D: usize,
    const N_4D: usize,
    const N_5D: usize,
>(
    vars: [[[[[u16; VARS]; N_2D]; N_3D]; N_4D]; N_5D],
) -> [[[[[u16; CDF_LEN]; N_2D]; N_3D]; N_4D]; N_5D]
    requires room { VARS < CDF_LEN }
    requires at_most { All (All (All (All AtMostOne))) vars }
    ensures { result ≡ map (map (map (map (complemented CDF_LEN)))) vars.entry }
{
    let mut out = [[[[[0; CDF_LEN]; N_2D]; N_3D]; N_4D]; N_5D];
    for i in 0..N_5D {
        out[i] = cdf_4d(vars[i]);
    }
    out
}
