// The laws of headers, over every tree of rows.
ghost use Rattle.std.specs.Prelude.{◌≡◌, ◌++◌, ◌≤◌, List, [], Bool, Option, None};
ghost use Rattle.av1_geometry.specs.Rules.{first_broken};
ghost use Rattle.av1_frame.specs.FrameRules.{frame_rules};
ghost use Rattle.av1_frame.specs.SequenceRules.{sequence_rules};
ghost use Rattle.av1_frame.specs.declared.frame.FrameInvariants.{FrameInvariants};
ghost use Rattle.av1_frame.specs.declared.reference.RefState.{RefState};
ghost use Rattle.av1_frame.specs.declared.state.FrameState.{FrameState};
ghost use Rattle.av1_header.specs.FrameHeader.{FrameFits, frame_of};
ghost use Rattle.av1_header.specs.SequenceHeader.{SequenceFits};
ghost use Rattle.av1_header.specs.Rows.{Rows, words, told, joined, Fits};
ghost use Rattle.av1_header.specs.RowReading.{ReadsBack, values};

/// A header is read back from its bits, whatever follows them: the values of its rows, and what they tell. `S` is what
/// the values come from, and `A` what they tell.
pub fn law_of_reading<S, A>()
    ensures { (t : Rows S A) (s : S) → Fits t s → ReadsBack t s }
{}

/// Bits that begin with two headers of the same rows begin with the same header twice, so no header is a proper beginning
/// of another.
pub fn law_of_beginnings<S, A>()
    ensures values { (t : Rows S A) (s u : S) (xs ys : List Bool) → Fits t s → Fits t u →
        joined (words t s) ++ xs ≡ joined (words t u) ++ ys → values t s ≡ values t u }
    ensures told { (t : Rows S A) (s u : S) (xs ys : List Bool) → Fits t s → Fits t u →
        joined (words t s) ++ xs ≡ joined (words t u) ++ ys → told t s ≡ told t u }
    ensures rest { (t : Rows S A) (s u : S) (xs ys : List Bool) → Fits t s → Fits t u →
        joined (words t s) ++ xs ≡ joined (words t u) ++ ys → xs ≡ ys }
    ensures none { (t : Rows S A) (s u : S) (xs : List Bool) → Fits t s → Fits t u →
        joined (words t s) ++ xs ≡ joined (words t u) → xs ≡ [] }
{}

/// A sequence and a frame that keep their rules have headers that can be written, where the size of a tile has 1 to 4 bytes.
pub fn law_of_rules()
    ensures sequence { (fi : FrameInvariants) (fs : FrameState) (refs : List (Option RefState)) →
        first_broken (sequence_rules fi.sequence) ≡ None → first_broken (frame_rules fi fs refs) ≡ None → SequenceFits fi }
    ensures frame { (fi : FrameInvariants) (fs : FrameState) (refs : List (Option RefState)) →
        first_broken (sequence_rules fi.sequence) ≡ None → first_broken (frame_rules fi fs refs) ≡ None →
        1 ≤ fs.max_tile_size_bytes → fs.max_tile_size_bytes ≤ 4 → FrameFits (frame_of fi fs refs) }
{}
