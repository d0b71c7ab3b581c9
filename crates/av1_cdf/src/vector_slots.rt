// Of motion vectors: their joints, and what each component has.
#![tactic(auto, unfolding(crate::specs::Layout::slot, crate::specs::Layout::component_slot, crate::specs::Runs::has_run))]

ghost use Rattle.std.specs.Prelude.{◌≡◌, ◌<◌, [], ◌∷◌, codes};
ghost use Rattle.av1_cdf.specs.Layout.{slot, component_slot};
ghost use Rattle.av1_cdf.specs.Slots.{slot_of};

use crate::cdf_context::CDFContext;
use crate::cdf_offset::CDFOffset;
use crate::layout::{
    BITS_CDF, CLASS0_CDF, CLASS0_FP_CDF, CLASS0_HP_CDF, CLASSES_CDF, FP_CDF, HP_CDF, JOINTS_CDF,
    SIGN_CDF,
};

impl CDFContext {
    /// Which components of a vector differ from 0. Shape 4.
    #[inline(always)]
    pub fn joints_cdf() -> CDFOffset
        ensures { slot_of result ≡ slot (codes "joints_cdf") [] }
    {
        JOINTS_CDF.cdf(0)
    }

    /// A bit of the size within its class, from the lowest one on. Shape 2x10x2.
    #[inline(always)]
    pub fn bits_cdf(component: usize, bit: usize) -> CDFOffset
        requires component { component < 2 }
        requires bit { bit < 10 }
        ensures { slot_of result ≡ component_slot component (codes "bits_cdf") (bit ∷ []) }
    {
        BITS_CDF.of_component(component).cdf(bit)
    }

    /// The whole part of a size in class 0. Shape 2x2.
    #[inline(always)]
    pub fn class0_cdf(component: usize) -> CDFOffset
        requires { component < 2 }
        ensures { slot_of result ≡ component_slot component (codes "class0_cdf") [] }
    {
        CLASS0_CDF.of_component(component).cdf(0)
    }

    /// The quarters of a size in class 0, by its whole part. Shape 2x2x4.
    #[inline(always)]
    pub fn class0_fp_cdf(component: usize, whole: usize) -> CDFOffset
        requires component { component < 2 }
        requires whole { whole < 2 }
        ensures { slot_of result ≡ component_slot component (codes "class0_fp_cdf") (whole ∷ []) }
    {
        CLASS0_FP_CDF.of_component(component).cdf(whole)
    }

    /// The eighth of a size in class 0. Shape 2x2.
    #[inline(always)]
    pub fn class0_hp_cdf(component: usize) -> CDFOffset
        requires { component < 2 }
        ensures { slot_of result ≡ component_slot component (codes "class0_hp_cdf") [] }
    {
        CLASS0_HP_CDF.of_component(component).cdf(0)
    }

    /// The class of a size. Shape 2x11.
    #[inline(always)]
    pub fn classes_cdf(component: usize) -> CDFOffset
        requires { component < 2 }
        ensures { slot_of result ≡ component_slot component (codes "classes_cdf") [] }
    {
        CLASSES_CDF.of_component(component).cdf(0)
    }

    /// The quarters of a size in a class above 0. Shape 2x4.
    #[inline(always)]
    pub fn fp_cdf(component: usize) -> CDFOffset
        requires { component < 2 }
        ensures { slot_of result ≡ component_slot component (codes "fp_cdf") [] }
    {
        FP_CDF.of_component(component).cdf(0)
    }

    /// The eighth of a size in a class above 0. Shape 2x2.
    #[inline(always)]
    pub fn hp_cdf(component: usize) -> CDFOffset
        requires { component < 2 }
        ensures { slot_of result ≡ component_slot component (codes "hp_cdf") [] }
    {
        HP_CDF.of_component(component).cdf(0)
    }

    /// The sign of a component. Shape 2x2.
    #[inline(always)]
    pub fn sign_cdf(component: usize) -> CDFOffset
        requires { component < 2 }
        ensures { slot_of result ≡ component_slot component (codes "sign_cdf") [] }
    {
        SIGN_CDF.of_component(component).cdf(0)
    }
}
