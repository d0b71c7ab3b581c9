// An edge: a number for each column or row of blocks.
ghost use Rattle.std.specs.Prelude.{◌≡◌, ◌+◌, ◌≤◌, length, replicate, slice_range};
ghost use Rattle.av1_blocks.specs.Edges.{halvings, taken_planes, put_planes};
ghost use Rattle.av1_blocks.specs.Places.{filled, first, put};

use av1_geometry::{COEFF_CONTEXT_MAX_WIDTH, MAX_PLANES, MIB_SIZE, PARTITION_CONTEXT_MAX_WIDTH};

// Sets the numbers from one place up to another.
pub(crate) fn fill(edge: &mut [u8], from: usize, to: usize, value: u8)
    requires order { from ≤ to }
    requires end { to ≤ length edge.old }
    ensures { edge.new ≡ filled from to value edge.old }
{
    for k in from..to {
        edge[k] = value;
    }
}

// The same in a plane above and in a plane to the left.
pub(crate) fn fill_above(
    edge: &mut [u8; COEFF_CONTEXT_MAX_WIDTH],
    from: usize,
    to: usize,
    value: u8,
)
    requires order { from ≤ to }
    requires end { to ≤ 1024 }
    ensures { edge.new ≡ filled from to value edge.old }
{
    fill(edge, from, to, value);
}

pub(crate) fn fill_left(edge: &mut [u8; MIB_SIZE], from: usize, to: usize, value: u8)
    requires order { from ≤ to }
    requires end { to ≤ 16 }
    ensures { edge.new ≡ filled from to value edge.old }
{
    fill(edge, from, to, value);
}

// The numbers of partitions over a superblock.
pub(crate) fn take_partitions(
    edge: &[u8; PARTITION_CONTEXT_MAX_WIDTH],
    from: usize,
) -> [u8; MIB_SIZE >> 1]
    requires { from ≤ 504 }
    ensures { result ≡ slice_range edge.now from (from + 8) }
{
    let mut taken = [0; MIB_SIZE >> 1];
    taken.copy_from_slice(&edge[from..from + (MIB_SIZE >> 1)]);
    taken
}

// The numbers of transforms or coefficients over a superblock.
pub(crate) fn take(edge: &[u8; COEFF_CONTEXT_MAX_WIDTH], from: usize) -> [u8; MIB_SIZE]
    requires { from ≤ 1008 }
    ensures { result ≡ slice_range edge.now from (from + 16) }
{
    let mut taken = [0; MIB_SIZE];
    taken.copy_from_slice(&edge[from..from + MIB_SIZE]);
    taken
}

// Puts the first of some numbers back, from a place on.
pub(crate) fn put_back(edge: &mut [u8], from: usize, count: usize, saved: &[u8])
    requires all { count ≤ length saved.now }
    requires end { from + count ≤ length edge.old }
    ensures { edge.new ≡ put from count saved.now edge.old }
{
    for k in 0..count {
        edge[from + k] = saved[k];
    }
}

// The same in a plane above.
fn put_back_plane(edge: &mut [u8; COEFF_CONTEXT_MAX_WIDTH], from: usize, saved: &[u8; MIB_SIZE])
    requires { from ≤ 1008 }
    ensures { edge.new ≡ put from 16 saved.now edge.old }
{
    put_back(edge, from, MIB_SIZE, saved);
}

// How often a plane halves a side of luma.
pub(crate) fn halvings(dec: usize, plane: usize) -> usize
    requires { dec ≤ 1 }
    ensures value { result ≡ halvings dec plane }
    ensures most { result ≤ 1 }
{
    if plane == 0 { 0 } else { dec }
}

// Sets all numbers of the first planes to 0.
pub(crate) fn clear_planes(edges: &mut [[u8; MIB_SIZE]; MAX_PLANES], planes: usize)
    requires { planes ≤ 3 }
    ensures { edges.new ≡ first planes (λ _ _. replicate 16 0) edges.old }
{
    for plane in 0..planes {
        edges[plane] = [0; MIB_SIZE];
    }
}

// The numbers of a superblock that begins at a column, in the first planes.
pub(crate) fn take_planes(
    edges: &[[u8; COEFF_CONTEXT_MAX_WIDTH]; MAX_PLANES],
    planes: usize,
    dec: usize,
    x: usize,
) -> [[u8; MIB_SIZE]; MAX_PLANES]
    requires planes { planes ≤ 3 }
    requires halved { dec ≤ 1 }
    requires end { x ≤ 1008 }
    ensures { result ≡ taken_planes planes dec x edges.now }
{
    let mut taken = [[0; MIB_SIZE]; MAX_PLANES];
    for plane in 0..planes {
        taken[plane] = take(&edges[plane], x >> halvings(dec, plane));
    }
    taken
}

// Puts back the numbers of a superblock that begins at a column, in the first planes.
pub(crate) fn put_back_planes(
    edges: &mut [[u8; COEFF_CONTEXT_MAX_WIDTH]; MAX_PLANES],
    planes: usize,
    dec: usize,
    x: usize,
    saved: &[[u8; MIB_SIZE]; MAX_PLANES],
)
    requires planes { planes ≤ 3 }
    requires halved { dec ≤ 1 }
    requires end { x ≤ 1008 }
    ensures { edges.new ≡ put_planes planes dec x saved.now edges.old }
{
    for plane in 0..planes {
        put_back_plane(&mut edges[plane], x >> halvings(dec, plane), &saved[plane]);
    }
}
