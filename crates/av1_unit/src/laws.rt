// Laws of units. Each function is a theorem: it takes nothing and does nothing.
ghost use Rattle.std.specs.Prelude.{◌≡◌, ℕ, ◌^◌, ◌≤◌, ◌++◌, List, [], Some, None, drop, length, map};
ghost use Rattle.av1_step.specs.Given.{Given, IsGiven, tile_count};
ghost use Rattle.av1_unit.specs.Apart.{kind_and_payload, take_unit, tiles_in};
ghost use Rattle.av1_unit.specs.Coded.{numbered, report_of, tiles_of};
ghost use Rattle.av1_unit.specs.Findings.{first_refusal};
ghost use Rattle.av1_unit.specs.Framing.{frame_header, frame_payload, framed, obus};
ghost use Rattle.av1_unit.specs.Headline.{IsWritten};
ghost use Rattle.av1_unit.specs.Tiles.{bytes_of};
ghost use Rattle.av1_unit.specs.Lengths.{width_of};
ghost use Rattle.av1_unit.specs.Plain.{PlainUnit};
ghost use Rattle.av1_unit.specs.Report.{ReportLists};

/// What is promised of a unit that was written leaves nothing open: of each unit there is one list of bytes and one report.
pub fn law_of_written_units()
    ensures bytes { (u : PlainUnit) (bytes : List ℕ) (report : ReportLists) → IsWritten u bytes report → bytes ≡ bytes_of u }
    ensures report { (u : PlainUnit) (bytes : List ℕ) (report : ReportLists) → IsWritten u bytes report → report ≡ report_of u }
{}

/// A unit is taken apart by the kinds and the lengths of its OBUs alone, whatever follows it: its last OBU is its frame. So no
/// unit is a proper beginning of another. The tiles of a unit that is valid are taken from what stands behind the frame header, by
/// their number and by how many bytes their sizes have.
pub fn law_of_taking_apart()
    ensures obus { (g : Given) (tiles : List (List ℕ)) (more : List ℕ) (n : ℕ) → length (obus g tiles) ≤ n →
        take_unit n (framed g tiles ++ more) ≡ Some (record { obus = map kind_and_payload (obus g tiles); rest = more }) }
    ensures none { (u v : PlainUnit) (bytes more : List ℕ) (one two : ReportLists) →
        IsWritten u bytes one → IsWritten v (bytes ++ more) two → more ≡ [] }
    ensures tiles { (u : PlainUnit) → first_refusal u ≡ None → let tiles = tiles_of u.given (numbered u) in
        tiles_in (width_of tiles) (length u.scripts) (drop (length (frame_header u.given (width_of tiles))) (frame_payload u.given tiles)) ≡ tiles }
{}

/// A frame that breaks no rule has one tile at least, and 64 by 64 at most.
pub fn law_of_tile_counts()
    ensures some { (g : Given) → IsGiven g → 1 ≤ tile_count g.fi }
    ensures few { (g : Given) → IsGiven g → tile_count g.fi ≤ 2 ^ 12 }
{}
