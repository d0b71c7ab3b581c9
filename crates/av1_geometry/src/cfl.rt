// Chroma from luma: the signs and sizes of the two factors.
ghost use Rattle.std.specs.Prelude.{◌≡◌, ℕ, ◌+◌, ◌-◌, ◌*◌, ◌/◌, ◌%◌, ◌<◌, ◌≤◌, ◌↔◌, IsTrue, [], ◌∷◌, ℤ, pos, negsuc, ◌≤ℤ◌};
ghost use Rattle.av1_geometry.specs.Cfl.{sign_number, sign_of, sign_at, scale_at, signed, magnitude};

/// The sign of a factor.
#[derive(Clone, Copy, Debug, PartialEq, Eq)]
pub enum CFLSign {
    CFL_SIGN_ZERO,
    CFL_SIGN_NEG,
    CFL_SIGN_POS,
}

use CFLSign::*;

impl CFLSign {
    /// The sign of a factor.
    pub fn from_alpha(a: i16) -> CFLSign
        ensures { result ≡ sign_of a }
    {
        if a < 0 {
            CFL_SIGN_NEG
        } else if a > 0 {
            CFL_SIGN_POS
        } else {
            CFL_SIGN_ZERO
        }
    }

    /// The place of the sign in the order of the enum.
    pub fn number(self) -> usize
        ensures value { result ≡ sign_number self }
        ensures bound { result < 3 }
    {
        self as usize
    }
}

/// The factors of the two chroma planes, in eighths: their signs, and their sizes.
#[derive(Clone, Copy, Debug, PartialEq, Eq)]
pub struct CFLParams {
    pub sign: [CFLSign; 2],
    pub scale: [u8; 2],
}

impl Default for CFLParams {
    ghost use Rattle.av1_geometry.specs.Cfl.{default_params};

    ghost is_default = { λ p. p ≡ default_params };

    fn default() -> CFLParams {
        CFLParams {
            sign: [CFL_SIGN_NEG, CFL_SIGN_ZERO],
            scale: [1, 0],
        }
    }
}

impl CFLParams {
    /// The signs and sizes of the factors `u` and `v`.
    pub fn from_alpha(u: i16, v: i16) -> CFLParams
        requires u_low { negsuc 254 ≤ℤ u }
        requires u_high { u ≤ℤ pos 255 }
        requires v_low { negsuc 254 ≤ℤ v }
        requires v_high { v ≤ℤ pos 255 }
        ensures signs { result.sign ≡ sign_of u ∷ sign_of v ∷ [] }
        ensures scales { result.scale ≡ magnitude u ∷ magnitude v ∷ [] }
    {
        CFLParams {
            sign: [CFLSign::from_alpha(u), CFLSign::from_alpha(v)],
            scale: [u.unsigned_abs() as u8, v.unsigned_abs() as u8],
        }
    }

    /// Whether the factor of a chroma plane is not zero, so that its size is coded.
    pub fn is_coded(self, uv: usize) -> bool
        requires { uv < 2 }
        ensures { IsTrue result ↔ (1 ≤ sign_number (sign_at self uv)) }
    {
        self.sign[uv].number() >= 1
    }

    /// The symbol of both signs, of which one is not zero.
    pub fn joint_sign(self) -> u32
        requires { 1 ≤ sign_number (sign_at self 0) + sign_number (sign_at self 1) }
        ensures value { result + 1 ≡ 3 * sign_number (sign_at self 0) + sign_number (sign_at self 1) }
        ensures bound { result < 8 }
    {
        (3 * self.sign[0].number() + self.sign[1].number() - 1) as u32
    }

    /// The context of the size of a factor, by its own sign and the other's.
    pub fn context(self, uv: usize) -> usize
        requires plane { uv < 2 }
        requires sign { 1 ≤ sign_number (sign_at self uv) }
        ensures value { result + 3 ≡ 3 * sign_number (sign_at self uv) + sign_number (sign_at self (1 - uv)) }
        ensures bound { result < 6 }
    {
        3 * self.sign[uv].number() + self.sign[1 - uv].number() - 3
    }

    /// The symbol of the size of a factor.
    pub fn index(self, uv: usize) -> u32
        requires plane { uv < 2 }
        requires sign { 1 ≤ sign_number (sign_at self uv) }
        requires scale { 1 ≤ scale_at self uv }
        ensures { result + 1 ≡ scale_at self uv }
    {
        (self.scale[uv] - 1) as u32
    }

    /// The factor of a chroma plane.
    pub fn alpha(self, uv: usize) -> i16
        requires { uv < 2 }
        ensures { result ≡ signed (sign_at self uv) (scale_at self uv) }
    {
        let scale = self.scale[uv] as i16;
        match self.sign[uv] {
            CFL_SIGN_ZERO => 0,
            CFL_SIGN_NEG => -scale,
            CFL_SIGN_POS => scale,
        }
    }
}

/// A joint sign tells both signs, a context tells both signs where the factor's own is not zero, and sign and size tell a factor.
pub fn law_cfl()
    ensures joint { (a b : CFLSign) (joint : ℕ) → joint + 1 ≡ 3 * sign_number a + sign_number b →
        ((joint + 1) / 3 ≡ sign_number a) × ((joint + 1) % 3 ≡ sign_number b) }
    ensures context { (a b : CFLSign) (n : ℕ) → 1 ≤ sign_number a → n + 3 ≡ 3 * sign_number a + sign_number b →
        (n / 3 + 1 ≡ sign_number a) × (n % 3 ≡ sign_number b) }
    ensures factor { (a : ℤ) → signed (sign_of a) (magnitude a) ≡ a }
{}
