// One rate for all writers.
ghost use Rattle.std.specs.Prelude.{◌≡◌, ℕ, ◌^◌, ◌≤◌, All, Bool, List};
ghost use Rattle.av1_model.specs.Interval.{Token, IsToken, whole};
ghost use Rattle.av1_model.specs.Position.{Position, advance, advance_all, encoder_at};
ghost use Rattle.av1_ec.specs.Rate.{AfterReplay, narrow_all, new_counter, new_encoder, new_recorder, tell_at, tell_frac_at, told};
ghost use Rattle.av1_ec.specs.Recorder.{tokens_at};
ghost use Rattle.av1_ec.specs.Flat.{flat_tokens};
ghost use Rattle.av1_ec.specs.Writing.{HasFewBits, IsPosition, with_fake};

use crate::counter::WriterCounter;
use crate::frac::OD_BITRES;
use crate::known::Known;
use crate::recorder::WriterRecorder;
use crate::writer_base::WriterBase;

/// A new counter, a new recorder and a new encoder tell the same by `tell` and by `tell_frac` after the same tokens and fake
/// bits, of which it doesn't matter when they are added.
pub fn law_of_one_rate()
    ensures counter { (ts : List Token) (fake : ℕ) → tell_at (told new_counter ts fake) ≡ tell_at (told new_encoder ts fake) }
    ensures recorder { (ts : List Token) (fake : ℕ) → tell_at (told new_recorder ts fake) ≡ tell_at (told new_encoder ts fake) }
    ensures counter_frac { (ts : List Token) (fake : ℕ) → tell_frac_at (told new_counter ts fake) ≡ tell_frac_at (told new_encoder ts fake) }
    ensures recorder_frac { (ts : List Token) (fake : ℕ) → tell_frac_at (told new_recorder ts fake) ≡ tell_frac_at (told new_encoder ts fake) }
    ensures any_time { (p : Position) (t : Token) (fake : ℕ) → advance (with_fake p fake) t ≡ with_fake (advance p t) fake }
{}

/// A recorder that began anew has exactly the tokens that were stored, and an encoder that begins anew has by them the
/// interval that they leave.
pub fn law_of_replaying()
    ensures tokens { (ts : List Token) → tokens_at (advance_all new_recorder ts) ≡ ts }
    ensures interval { (ts : List Token) → advance_all new_encoder (tokens_at (advance_all new_recorder ts)) ≡ encoder_at (narrow_all whole ts) }
{}

/// A storing call never lowers `tell_frac`: valid tokens do not, and flat bits are valid tokens. Nor does it lower `tell`.
pub fn law_of_rising()
    ensures frac { (p : Position) (ts : List Token) → IsPosition p → All IsToken ts → tell_frac_at p ≤ tell_frac_at (advance_all p ts) }
    ensures whole { (p : Position) (ts : List Token) → tell_at p ≤ tell_at (advance_all p ts) }
    ensures flat { (bits : List Bool) → All IsToken (flat_tokens bits) }
{}

/// The costs of `tell_frac` are in eighths of a bit.
pub fn law_of_units()
    ensures { OD_BITRES ≡ 3 }
{}

/// A counter never wants more memory: by its spare, every store into it succeeds.
pub fn law_of_counters(w: &WriterBase<WriterCounter>)
    ensures { 2 ^ 64 ≤ ⟦<WriterBase<WriterCounter> as Known>⟧.spare w.now }
{}

/// A recorder's range and shift are those of any new writer after its tokens. So it can be replayed into a new writer.
pub fn law_of_recorders(w: &WriterBase<WriterRecorder>)
    ensures range { let p = ⟦<WriterBase<WriterRecorder> as Known>⟧.position w.now in AfterReplay p (λ q. q.range ≡ p.range) }
    ensures shift { let p = ⟦<WriterBase<WriterRecorder> as Known>⟧.position w.now in AfterReplay p (λ q. q.shift ≡ p.shift) }
    ensures fits { let p = ⟦<WriterBase<WriterRecorder> as Known>⟧.position w.now in AfterReplay p HasFewBits }
{}
