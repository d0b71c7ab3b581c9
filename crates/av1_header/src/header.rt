// The calls of headers and metadata.
ghost use Rattle.std.specs.Prelude.{◌≡◌, ℕ, ◌^◌, ◌<◌, ◌≤◌, Bool, List, true, false, length, slice_index_or, unsigned_abs, OnOk, OnErr};
ghost use Rattle.av1_frame.specs.Obu.{obu_meta_type_number};
ghost use Rattle.av1_header.specs.Color.{color_config};
ghost use Rattle.av1_header.specs.Deltas.{DeblockFits, PrimaryFits, going_on, has_primary, deltas_before, block_deltas_of, loop_filter_of, read_delta_q};
ghost use Rattle.av1_header.specs.Filters.{CdefFits, RestorationFits, cdef_of, restoration_of};
ghost use Rattle.av1_header.specs.FrameHeader.{FrameFits, frame_of, header_of, shows_existing};
ghost use Rattle.av1_header.specs.Metadata.{MessageFits, message_of, obu_header, sequence_metadata, t35_metadata};
ghost use Rattle.av1_header.specs.RowReading.{Writes, WritesWhole};
ghost use Rattle.av1_header.specs.Segments.{HaveFittingFeatures, segmentation_params};
ghost use Rattle.av1_header.specs.SequenceHeader.{SidesFit, SequenceFits, ToolsFit, max_frame_size, sequence_header, tools};
ghost use Rattle.av1_header.specs.Sizes.{RenderFits, with_refs, frame_size_of, render_size, sizes_of};
ghost use Rattle.av1_model.specs.Bits.{byte_aligned};

use crate::color::{is_monochrome, profile_of, write_color};
use crate::deltas::{deltas_before, write_block_deltas, write_delta, write_loop_filter};
use crate::filters::{write_cdef, write_restoration};
use crate::frame_header::{color_of, write_header_of_frame};
use crate::metadata::{write_header, write_message, write_t35};
use crate::segments::write_segmentation;
use crate::sequence_header::{write_max_size, write_sequence, write_tools};
use crate::sizes::{max_size, write_own_size, write_shown_size, write_sizes};
use av1_bits::BitWriter;
use av1_frame::{
    DeblockState, FrameInvariants, FrameState, ObuMetaType, ObuType, Refs, RestorationState,
    SegmentationState, Sequence, T35,
};
use av1_geometry::OutOfMemory;

/// Writes headers and metadata, row by row. A call that answers `OutOfMemory` has written the first of its rows.
pub trait UncompressedHeader {
    /// The bits that were written.
    ghost bits: { Self → List Bool };

    /// Writes an OBU header without an extension, of an OBU that says its size (`obu_header()`, AV1 specification 5.3.2).
    /// `obu_extension` is 0.
    fn write_obu_header(&mut self, obu_type: ObuType, obu_extension: u32) -> Result<(), OutOfMemory>
        requires { obu_extension ≡ 0 }
        ensures { Writes result obu_header obu_type (bits self.old) (bits self.new) };

    /// Writes a metadata OBU of what the sequence says of its light (`OBU_META_HDR_CLL`) or of its display
    /// (`OBU_META_HDR_MDCV`; AV1 specification 5.8.3 and 5.8.4). The sequence says it.
    fn write_sequence_metadata_obu(
        &mut self,
        obu_meta_type: ObuMetaType,
        seq: &Sequence,
    ) -> Result<(), OutOfMemory>
        requires { MessageFits (obu_meta_type_number obu_meta_type) seq.now }
        ensures { WritesWhole result sequence_metadata (message_of obu_meta_type seq.now) (bits self.old) (bits self.new) };

    /// Writes a metadata OBU with a message by ITU-T T.35 of at most 65535 bytes (AV1 specification 5.8.2).
    fn write_t35_metadata_obu(&mut self, t35: &T35) -> Result<(), OutOfMemory>
        requires { length t35.now.payload ≤ 65535 }
        ensures { WritesWhole result t35_metadata t35.now (bits self.old) (bits self.new) };

    /// Writes a sequence header up to its trailing bits (`sequence_header_obu()`, AV1 specification 5.5.1).
    fn write_sequence_header_obu(&mut self, fi: &FrameInvariants) -> Result<(), OutOfMemory>
        requires { SequenceFits fi.now }
        ensures { Writes result sequence_header fi.now (bits self.old) (bits self.new) };

    /// Writes the part of a sequence header from the greatest sides to the filters.
    fn write_sequence_header(&mut self, fi: &FrameInvariants) -> Result<(), OutOfMemory>
        requires { ToolsFit fi.now }
        ensures { Writes result (tools fi.now.sequence.reduced_still_picture_hdr) fi.now (bits self.old) (bits self.new) };

    /// Writes the greatest sides of frames, those of this frame, and in how many bits each is coded.
    fn write_max_frame_size(&mut self, fi: &FrameInvariants) -> Result<(), OutOfMemory>
        requires { SidesFit fi.now }
        ensures { Writes result max_frame_size fi.now (bits self.old) (bits self.new) };

    /// Writes the sides of a frame that has sides of its own (`frame_size()`, AV1 specification 5.9.5).
    fn write_frame_size(&mut self, fi: &FrameInvariants) -> Result<(), OutOfMemory>
        requires { SidesFit fi.now }
        ensures { Writes result (frame_size_of fi.now) fi.now (bits self.old) (bits self.new) };

    /// Writes the sides at which a frame is shown (`render_size()`, AV1 specification 5.9.6).
    fn write_render_size(&mut self, fi: &FrameInvariants) -> Result<(), OutOfMemory>
        requires { RenderFits fi.now }
        ensures { Writes result (render_size true) fi.now (bits self.old) (bits self.new) };

    /// Writes how samples are stored (`color_config()`, AV1 specification 5.5.2).
    fn write_color_config(&mut self, seq: &Sequence) -> Result<(), OutOfMemory>
        requires { seq.now.chroma_sample_position < 2 ^ 2 }
        ensures { Writes result (color_config seq.now.profile) seq.now (bits self.old) (bits self.new) };

    /// Writes a frame header and aligns it (`uncompressed_header()`, AV1 specification 5.9.2). A header that shows an existing
    /// frame needs only its number, below 8.
    fn write_frame_header_obu(
        &mut self,
        fi: &FrameInvariants,
        fs: &FrameState,
        refs: &Refs,
    ) -> Result<(), OutOfMemory>
        requires index { shows_existing fi.now ≡ true → fi.now.frame_to_show_map_idx < 2 ^ 3 }
        requires fits { shows_existing fi.now ≡ false → FrameFits (frame_of fi.now fs.now refs.now) }
        ensures { WritesWhole result (header_of fi.now) (frame_of fi.now fs.now refs.now) (bits self.old) (bits self.new) };

    /// Writes the sides of a frame by a reference that has them, or in full (`frame_size_with_refs()`, AV1 specification 5.9.7).
    fn write_frame_size_with_refs(
        &mut self,
        fi: &FrameInvariants,
        refs: &Refs,
    ) -> Result<(), OutOfMemory>
        requires places { (i : ℕ) → i < 7 → slice_index_or fi.now.ref_frames i 0 < 2 ^ 3 }
        requires sides { SidesFit fi.now }
        requires render { RenderFits fi.now }
        ensures { Writes result (sizes_of fi.now) (with_refs fi.now refs.now) (bits self.old) (bits self.new) };

    /// Writes how blocks change the deblocking levels (`delta_lf_params()`, AV1 specification 5.9.18). Nothing is written where
    /// blocks don't change the quantizer.
    fn write_deblock_filter_a(
        &mut self,
        fi: &FrameInvariants,
        deblock: &DeblockState,
    ) -> Result<(), OutOfMemory>
        requires { deblock.now.block_delta_shift < 2 ^ 2 }
        ensures { Writes result (block_deltas_of fi.now deblock.now) deblock.now (bits self.old) (bits self.new) };

    /// Writes the deblocking filter (`loop_filter_params()`, AV1 specification 5.9.11). Deltas are said where they differ from
    /// those of the primary reference.
    fn write_deblock_filter_b(
        &mut self,
        fi: &FrameInvariants,
        deblock: &DeblockState,
        refs: &Refs,
    ) -> Result<(), OutOfMemory>
        requires fits { DeblockFits deblock.now }
        requires place { PrimaryFits fi.now }
        ensures { Writes result (loop_filter_of fi.now) (going_on deblock.now (deltas_before fi.now refs.now)) (bits self.old) (bits self.new) };

    /// Writes the constrained directional enhancement filter (`cdef_params()`, AV1 specification 5.9.19), where the sequence
    /// has it.
    fn write_frame_cdef(&mut self, fi: &FrameInvariants) -> Result<(), OutOfMemory>
        requires { fi.now.sequence.enable_cdef ≡ true → CdefFits fi.now }
        ensures { Writes result (cdef_of fi.now) fi.now (bits self.old) (bits self.new) };

    /// Writes the loop restoration filters (`lr_params()`, AV1 specification 5.9.20), where the sequence has them.
    fn write_frame_lrf(
        &mut self,
        fi: &FrameInvariants,
        rs: &RestorationState,
    ) -> Result<(), OutOfMemory>
        requires { fi.now.sequence.enable_restoration ≡ true → RestorationFits rs.now }
        ensures { Writes result (restoration_of fi.now) rs.now (bits self.old) (bits self.new) };

    /// Writes the segments (`segmentation_params()`, AV1 specification 5.9.14).
    fn write_segment_data(
        &mut self,
        fi: &FrameInvariants,
        segmentation: &SegmentationState,
    ) -> Result<(), OutOfMemory>
        requires { HaveFittingFeatures segmentation.now }
        ensures { Writes result (segmentation_params (has_primary fi.now)) segmentation.now (bits self.old) (bits self.new) };

    /// Writes a quantizer delta from -63 to 63 (`read_delta_q()`, AV1 specification 5.9.13).
    fn write_delta_q(&mut self, delta_q: i8) -> Result<(), OutOfMemory>
        requires { unsigned_abs delta_q ≤ 63 }
        ensures { Writes result (read_delta_q true) delta_q (bits self.old) (bits self.new) };
}

// What a call answers, whose rows memory ran out for or not.
fn outcome(refused: bool) -> Result<(), OutOfMemory>
    ensures ok { OnOk result (refused ≡ false) }
    ensures err { OnErr result (refused ≡ true) }
{
    if refused { Err(OutOfMemory) } else { Ok(()) }
}

// The same, with zero bits behind the rows.
fn aligned(bits: &mut BitWriter, refused: bool) -> Result<(), OutOfMemory>
    ensures ok { OnOk result (refused ≡ false) }
    ensures grown { OnOk result (bits.new ≡ byte_aligned bits.old) }
    ensures err { OnErr result (bits.new ≡ bits.old) }
{
    if refused {
        return Err(OutOfMemory);
    }
    bits.byte_align()
}

impl UncompressedHeader for BitWriter {
    ghost bits = { λ w. w };

    fn write_obu_header(
        &mut self,
        obu_type: ObuType,
        _obu_extension: u32,
    ) -> Result<(), OutOfMemory> {
        let mut refused = false;
        write_header(self, &mut refused, obu_type);
        outcome(refused)
    }

    fn write_sequence_metadata_obu(
        &mut self,
        obu_meta_type: ObuMetaType,
        seq: &Sequence,
    ) -> Result<(), OutOfMemory> {
        let mut refused = false;
        write_message(self, &mut refused, obu_meta_type, seq);
        aligned(self, refused)
    }

    fn write_t35_metadata_obu(&mut self, t35: &T35) -> Result<(), OutOfMemory> {
        let mut refused = false;
        write_t35(self, &mut refused, t35);
        aligned(self, refused)
    }

    fn write_sequence_header_obu(&mut self, fi: &FrameInvariants) -> Result<(), OutOfMemory> {
        let mut refused = false;
        write_sequence(self, &mut refused, fi);
        outcome(refused)
    }

    fn write_sequence_header(&mut self, fi: &FrameInvariants) -> Result<(), OutOfMemory> {
        let mut refused = false;
        write_tools(
            self,
            &mut refused,
            fi,
            fi.sequence.reduced_still_picture_hdr,
        );
        outcome(refused)
    }

    fn write_max_frame_size(&mut self, fi: &FrameInvariants) -> Result<(), OutOfMemory> {
        let mut refused = false;
        write_max_size(self, &mut refused, fi);
        outcome(refused)
    }

    fn write_frame_size(&mut self, fi: &FrameInvariants) -> Result<(), OutOfMemory> {
        let mut refused = false;
        write_own_size(
            self,
            &mut refused,
            fi,
            fi.frame_size_override_flag,
            &max_size(fi),
        );
        outcome(refused)
    }

    fn write_render_size(&mut self, fi: &FrameInvariants) -> Result<(), OutOfMemory> {
        let mut refused = false;
        write_shown_size(self, &mut refused, fi, true);
        outcome(refused)
    }

    fn write_color_config(&mut self, seq: &Sequence) -> Result<(), OutOfMemory> {
        let mut refused = false;
        write_color(self, &mut refused, seq, profile_of(seq));
        outcome(refused)
    }

    fn write_frame_header_obu(
        &mut self,
        fi: &FrameInvariants,
        fs: &FrameState,
        refs: &Refs,
    ) -> Result<(), OutOfMemory> {
        let mut refused = false;
        write_header_of_frame(self, &mut refused, fi, fs, refs);
        aligned(self, refused)
    }

    fn write_frame_size_with_refs(
        &mut self,
        fi: &FrameInvariants,
        refs: &Refs,
    ) -> Result<(), OutOfMemory> {
        let mut refused = false;
        let own = fi.frame_size_override_flag;
        write_sizes(self, &mut refused, fi, refs, 7, own, &max_size(fi));
        outcome(refused)
    }

    fn write_deblock_filter_a(
        &mut self,
        fi: &FrameInvariants,
        deblock: &DeblockState,
    ) -> Result<(), OutOfMemory> {
        let mut refused = false;
        let (present, intrabc) = (fi.delta_q_present, fi.allow_intrabc);
        let uncoded = deblock.block_deltas_enabled;
        write_block_deltas(self, &mut refused, deblock, present, intrabc, uncoded);
        outcome(refused)
    }

    fn write_deblock_filter_b(
        &mut self,
        fi: &FrameInvariants,
        deblock: &DeblockState,
        refs: &Refs,
    ) -> Result<(), OutOfMemory> {
        let mut refused = false;
        let before = deltas_before(fi, refs);
        let mono = is_monochrome(&fi.sequence);
        write_loop_filter(self, &mut refused, deblock, &before, mono);
        outcome(refused)
    }

    fn write_frame_cdef(&mut self, fi: &FrameInvariants) -> Result<(), OutOfMemory> {
        let mut refused = false;
        let mono = is_monochrome(&fi.sequence);
        write_cdef(self, &mut refused, fi, fi.sequence.enable_cdef, mono);
        outcome(refused)
    }

    fn write_frame_lrf(
        &mut self,
        fi: &FrameInvariants,
        rs: &RestorationState,
    ) -> Result<(), OutOfMemory> {
        let mut refused = false;
        let color = color_of(&fi.sequence);
        write_restoration(
            self,
            &mut refused,
            rs,
            fi.sequence.enable_restoration,
            &color,
        );
        outcome(refused)
    }

    fn write_segment_data(
        &mut self,
        fi: &FrameInvariants,
        segmentation: &SegmentationState,
    ) -> Result<(), OutOfMemory> {
        let mut refused = false;
        let primary = fi.primary_ref_frame != 7;
        write_segmentation(self, &mut refused, segmentation, primary);
        outcome(refused)
    }

    fn write_delta_q(&mut self, delta_q: i8) -> Result<(), OutOfMemory> {
        let mut refused = false;
        write_delta(self, &mut refused, delta_q, true);
        outcome(refused)
    }
}
