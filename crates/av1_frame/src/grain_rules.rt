// The rule of film grain.
ghost use Rattle.std.specs.Prelude.{◌≡◌};
ghost use Rattle.av1_frame.specs.GrainRules.{grain_fits, grain_numbers_fit, codes_chroma_points, chroma_points_fit, points_fit, luma_positions};
ghost use Rattle.av1_frame.specs.GrainRules.{chroma_positions, codes_chroma_coefficients, coefficients_fit, coefficient_lists_fit, has_points};

use crate::film_grain::FilmGrain;
use crate::sequence::Sequence;
use crate::sequence_rules::{is_420, is_monochrome};

#[tactic(auto, unfolding(crate::specs::GrainRules::grain_fits))]
pub(crate) fn grain_fits(seq: &Sequence, grain: &Option<FilmGrain>) -> bool
    ensures { result ≡ grain_fits seq.now grain.now }
{
    match grain {
        Some(g) => points_fit(seq, g) && grain_numbers_fit(g) && coefficient_lists_fit(seq, g),
        None => true,
    }
}

fn grain_numbers_fit(g: &FilmGrain) -> bool
    ensures { result ≡ grain_numbers_fit g.now }
{
    8 <= g.scaling_shift
        && g.scaling_shift <= 11
        && g.ar_coeff_lag <= 3
        && 6 <= g.ar_coeff_shift
        && g.ar_coeff_shift <= 9
        && g.grain_scale_shift <= 3
        && g.cb_offset < 512
        && g.cr_offset < 512
}

fn codes_chroma_points(seq: &Sequence, g: &FilmGrain) -> bool
    ensures { result ≡ codes_chroma_points seq.now g.now }
{
    seq.film_grain_params_present
        && !is_monochrome(seq.chroma_sampling)
        && !g.chroma_scaling_from_luma
        && !(is_420(seq.chroma_sampling) && g.scaling_points_y.is_empty())
}

fn chroma_points_fit(coded: bool, points: &[[u8; 2]]) -> bool
    ensures { result ≡ chroma_points_fit coded points.now }
{
    if coded {
        points.len() <= 10
    } else {
        points.is_empty()
    }
}

fn points_fit(seq: &Sequence, g: &FilmGrain) -> bool
    ensures { result ≡ points_fit seq.now g.now }
{
    let coded = codes_chroma_points(seq, g);
    g.scaling_points_y.len() <= 14
        && chroma_points_fit(coded, g.scaling_points_cb.as_slice())
        && chroma_points_fit(coded, g.scaling_points_cr.as_slice())
}

fn luma_positions(g: &FilmGrain) -> usize
    ensures { result ≡ luma_positions g.now }
{
    let lag = usize::from(g.ar_coeff_lag);
    2 * lag * (lag + 1)
}

fn chroma_positions(g: &FilmGrain) -> usize
    ensures { result ≡ chroma_positions g.now }
{
    let luma = luma_positions(g);
    if g.scaling_points_y.is_empty() {
        luma
    } else {
        luma + 1
    }
}

fn codes_chroma_coefficients(seq: &Sequence, g: &FilmGrain, points: &[[u8; 2]]) -> bool
    ensures { result ≡ codes_chroma_coefficients seq.now g.now points.now }
{
    seq.film_grain_params_present
        && ((g.chroma_scaling_from_luma && !is_monochrome(seq.chroma_sampling))
            || !points.is_empty())
}

fn coefficients_fit(coded: bool, positions: usize, list: &[i8]) -> bool
    ensures { result ≡ coefficients_fit coded positions list.now }
{
    list.len() == positions || (!coded && list.is_empty())
}

fn coefficient_lists_fit(seq: &Sequence, g: &FilmGrain) -> bool
    ensures { result ≡ coefficient_lists_fit seq.now g.now }
{
    let y = seq.film_grain_params_present && !g.scaling_points_y.is_empty();
    let cb = codes_chroma_coefficients(seq, g, g.scaling_points_cb.as_slice());
    let cr = codes_chroma_coefficients(seq, g, g.scaling_points_cr.as_slice());
    let chroma = chroma_positions(g);
    coefficients_fit(y, luma_positions(g), g.ar_coeffs_y.as_slice())
        && coefficients_fit(cb, chroma, g.ar_coeffs_cb.as_slice())
        && coefficients_fit(cr, chroma, g.ar_coeffs_cr.as_slice())
}
