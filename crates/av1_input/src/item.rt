// An item of a tile's script from a JSON value.
ghost use Rattle.std.specs.Prelude.{◌≡◌, [], ◌∷◌, false, pos};
ghost use Rattle.av1_input.specs.Item.{item, script, item_kinds, tool_kinds, inter_kinds, further_kinds, of_op, made_of, end_of, block, block_rows, parted};
ghost use Rattle.av1_input.specs.Item.{partition_rows, flag_rows, byte_rows, prediction_rows, skip, intra_mode_kf, intra_mode, uv_mode, filter_intra};
ghost use Rattle.av1_input.specs.Item.{palette, cdef, begin, begin_rows, segment, delta_lf, delta_lf_rows, angle_delta, angle_delta_rows, cfl_alphas};
ghost use Rattle.av1_input.specs.Item.{is_inter, ref_frames, ref_frames_rows, of_references, mv_refs, mv_refs_rows, inter_mode, compound_mode};
ghost use Rattle.av1_input.specs.Item.{drl, drl_rows, mv, mv_rows, of_vector};
ghost use Rattle.av1_input.specs.Item.{cfl_alphas_rows, of_alphas, tx_intra, tx_intra_rows, tx_inter, coeffs, coeffs_rows, levels, lrf, lrf_rows};
ghost use Rattle.av1_geometry.specs.declared.prediction_mode.PredictionMode.TheVariants.{DC_PRED};
ghost use Rattle.av1_geometry.specs.declared.partition_type.PartitionType.TheVariants.{PARTITION_NONE};
ghost use Rattle.av1_geometry.specs.declared.tx_size.TxSize.TheVariants.{TX_4X4};
ghost use Rattle.av1_input.specs.Filter.{filter};
ghost use Rattle.av1_input.specs.Taking.{Finishes, left_of};

use crate::error::ShapeError;
use crate::from_json::FromJson;
use crate::list::read_list;
use crate::members::Members;
use av1_geometry::{BlockOffset, MotionVector, RefType, TileBlockOffset};
use av1_tile::{Item, Levels, TileScript, TileStep};
use serde_json::Value;
use std::alloc::Global;

impl FromJson for Item {
    ghost kind = { item };

    fn none(_alloc: Global) -> Self {
        Item::Keep
    }

    fn from_json(alloc: Global, value: Value) -> Result<Self, ShapeError> {
        let mut members = Members::of(alloc, value);
        let op = members.required_text("op");
        item_of(op.as_str(), members)
    }
}

impl FromJson for TileScript {
    ghost kind = { script };

    fn none(alloc: Global) -> Self {
        TileScript {
            items: Vec::new(alloc),
        }
    }

    fn from_json(alloc: Global, value: Value) -> Result<Self, ShapeError> {
        match read_list(alloc, value) {
            Ok(items) => Ok(TileScript { items }),
            Err(error) => Err(error),
        }
    }
}

impl FromJson for Levels {
    ghost kind = { levels };

    fn none(alloc: Global) -> Self {
        Levels {
            levels: Vec::new(alloc),
        }
    }

    fn from_json(alloc: Global, value: Value) -> Result<Self, ShapeError> {
        match read_list(alloc, value) {
            Ok(levels) => Ok(Levels { levels }),
            Err(error) => Err(error),
        }
    }
}

// The item of the kind of this name, by its other members.
fn item_of(op: &str, members: Members) -> Result<Item, ShapeError>
    ensures { Finishes (of_op item_kinds op.now (left_of members)) members result }
{
    match op {
        "RowStart" => end(members, Item::Step(TileStep::RowStart)),
        "Block" => block(members),
        "Partition" => partition(members),
        "Skip" => skip(members),
        "Segment" => segment(members),
        "IntraModeKf" => intra_mode_kf(members),
        "IntraMode" => intra_mode(members),
        "UvMode" => uv_mode(members),
        _ => tool_item_of(op, members),
    }
}

fn tool_item_of(op: &str, members: Members) -> Result<Item, ShapeError>
    ensures { Finishes (of_op tool_kinds op.now (left_of members)) members result }
{
    match op {
        "AngleDelta" => angle_delta(members),
        "CflAlphas" => cfl_alphas(members),
        "FilterIntra" => filter_intra(members),
        "Palette" => palette(members),
        "Cdef" => cdef(members),
        "DeltaLf" => delta_lf(members),
        _ => inter_item_of(op, members),
    }
}

fn inter_item_of(op: &str, members: Members) -> Result<Item, ShapeError>
    ensures { Finishes (of_op inter_kinds op.now (left_of members)) members result }
{
    match op {
        "IsInter" => is_inter(members),
        "RefFrames" => ref_frames(members),
        "MvRefs" => mv_refs(members),
        "InterMode" => inter_mode(members),
        "CompoundMode" => compound_mode(members),
        "Drl" => drl(members),
        "Mv" => mv(members),
        _ => further_item_of(op, members),
    }
}

fn further_item_of(op: &str, members: Members) -> Result<Item, ShapeError>
    ensures { Finishes (of_op further_kinds op.now (left_of members)) members result }
{
    match op {
        "TxNote" => end(members, Item::Step(TileStep::TxNote)),
        "TxIntra" => tx_intra(members),
        "TxInter" => tx_inter(members),
        "Coeffs" => coeffs(members),
        "Lrf" => lrf(members),
        "Begin" => begin(members),
        "Keep" => end(members, Item::Keep),
        "Abandon" => end(members, Item::Abandon),
        _ => members.refuse("op"),
    }
}

fn block(mut members: Members) -> Result<Item, ShapeError>
    ensures { Finishes (made_of block_rows tt block (left_of members)) members result }
{
    let step = TileStep::Block {
        x: members.required("x"),
        y: members.required("y"),
        size: members.required("size"),
    };
    members.finish(Item::Step(step))
}

fn partition(mut members: Members) -> Result<Item, ShapeError>
    ensures { Finishes (made_of partition_rows PARTITION_NONE parted (left_of members)) members result }
{
    let step = TileStep::Partition {
        x: members.required("x"),
        y: members.required("y"),
        size: members.required("size"),
        answer: members.required("a"),
    };
    members.finish(Item::Step(step))
}

fn skip(mut members: Members) -> Result<Item, ShapeError>
    ensures { Finishes (made_of flag_rows false skip (left_of members)) members result }
{
    let step = TileStep::Skip {
        answer: members.required("a"),
    };
    members.finish(Item::Step(step))
}

fn intra_mode_kf(mut members: Members) -> Result<Item, ShapeError>
    ensures { Finishes (made_of prediction_rows DC_PRED intra_mode_kf (left_of members)) members result }
{
    let answer = members.required("a");
    members.finish(Item::Step(TileStep::IntraModeKf { answer }))
}

fn intra_mode(mut members: Members) -> Result<Item, ShapeError>
    ensures { Finishes (made_of prediction_rows DC_PRED intra_mode (left_of members)) members result }
{
    let answer = members.required("a");
    members.finish(Item::Step(TileStep::IntraMode { answer }))
}

fn uv_mode(mut members: Members) -> Result<Item, ShapeError>
    ensures { Finishes (made_of prediction_rows DC_PRED uv_mode (left_of members)) members result }
{
    let answer = members.required("a");
    members.finish(Item::Step(TileStep::UvMode { answer }))
}

fn filter_intra(mut members: Members) -> Result<Item, ShapeError>
    ensures { Finishes (made_of flag_rows false filter_intra (left_of members)) members result }
{
    let answer = members.required("a");
    members.finish(Item::Step(TileStep::FilterIntra { answer }))
}

fn palette(mut members: Members) -> Result<Item, ShapeError>
    ensures { Finishes (made_of flag_rows false palette (left_of members)) members result }
{
    let answer = members.required("a");
    members.finish(Item::Step(TileStep::Palette { answer }))
}

fn cdef(mut members: Members) -> Result<Item, ShapeError>
    ensures { Finishes (made_of byte_rows 0 cdef (left_of members)) members result }
{
    let answer = members.required("a");
    members.finish(Item::Step(TileStep::Cdef { answer }))
}

fn segment(mut members: Members) -> Result<Item, ShapeError>
    ensures { Finishes (made_of byte_rows 0 segment (left_of members)) members result }
{
    let answer = members.required("a");
    members.finish(Item::Step(TileStep::Segment { answer }))
}

fn delta_lf(mut members: Members) -> Result<Item, ShapeError>
    ensures { Finishes (made_of delta_lf_rows [] delta_lf (left_of members)) members result }
{
    let answer = members.required("a");
    members.finish(Item::Step(TileStep::DeltaLf { answer }))
}

fn angle_delta(mut members: Members) -> Result<Item, ShapeError>
    ensures { Finishes (made_of angle_delta_rows (pos 0) angle_delta (left_of members)) members result }
{
    let step = TileStep::AngleDelta {
        chroma: members.required("chroma"),
        answer: members.required("a"),
    };
    members.finish(Item::Step(step))
}

fn cfl_alphas(mut members: Members) -> Result<Item, ShapeError>
    ensures { Finishes (made_of cfl_alphas_rows [] cfl_alphas (left_of members)) members result }
{
    let alphas = members.required("a");
    members.finish(of_alphas(alphas))
}

fn of_alphas(alphas: [i16; 2]) -> Item
    ensures { result ≡ of_alphas alphas }
{
    let answer = (alphas[0], alphas[1]);
    Item::Step(TileStep::CflAlphas { answer })
}

fn is_inter(mut members: Members) -> Result<Item, ShapeError>
    ensures { Finishes (made_of flag_rows false is_inter (left_of members)) members result }
{
    let answer = members.required("a");
    members.finish(Item::Step(TileStep::IsInter { answer }))
}

fn ref_frames(mut members: Members) -> Result<Item, ShapeError>
    ensures { Finishes (made_of ref_frames_rows [] ref_frames (left_of members)) members result }
{
    let refs = members.required("a");
    members.finish(of_references(refs))
}

fn of_references(refs: [RefType; 2]) -> Item
    ensures { result ≡ of_references refs }
{
    let answer = (refs[0], refs[1]);
    Item::Step(TileStep::RefFrames { answer })
}

fn mv_refs(mut members: Members) -> Result<Item, ShapeError>
    ensures { Finishes (made_of mv_refs_rows tt mv_refs (left_of members)) members result }
{
    let has_tr = members.required("has_tr");
    members.finish(Item::Step(TileStep::MvRefs { has_tr }))
}

fn inter_mode(mut members: Members) -> Result<Item, ShapeError>
    ensures { Finishes (made_of prediction_rows DC_PRED inter_mode (left_of members)) members result }
{
    let answer = members.required("a");
    members.finish(Item::Step(TileStep::InterMode { answer }))
}

fn compound_mode(mut members: Members) -> Result<Item, ShapeError>
    ensures { Finishes (made_of prediction_rows DC_PRED compound_mode (left_of members)) members result }
{
    let answer = members.required("a");
    members.finish(Item::Step(TileStep::CompoundMode { answer }))
}

fn drl(mut members: Members) -> Result<Item, ShapeError>
    ensures { Finishes (made_of drl_rows false drl (left_of members)) members result }
{
    let step = TileStep::Drl {
        index: members.required("idx"),
        answer: members.required("a"),
    };
    members.finish(Item::Step(step))
}

fn mv(mut members: Members) -> Result<Item, ShapeError>
    ensures { Finishes (made_of mv_rows [] mv (left_of members)) members result }
{
    let list = members.required("list");
    let parts = members.required("a");
    members.finish(of_vector(list, parts))
}

fn of_vector(list: usize, parts: [i16; 2]) -> Item
    ensures { result ≡ of_vector list parts }
{
    let answer = MotionVector {
        row: parts[0],
        col: parts[1],
    };
    Item::Step(TileStep::Mv { list, answer })
}

fn tx_intra(mut members: Members) -> Result<Item, ShapeError>
    ensures { Finishes (made_of tx_intra_rows TX_4X4 tx_intra (left_of members)) members result }
{
    let answer = members.required("a");
    members.finish(Item::Step(TileStep::TxIntra { answer }))
}

fn tx_inter(mut members: Members) -> Result<Item, ShapeError>
    ensures { Finishes (made_of flag_rows false tx_inter (left_of members)) members result }
{
    let answer = members.required("a");
    members.finish(Item::Step(TileStep::TxInter { answer }))
}

fn coeffs(mut members: Members) -> Result<Item, ShapeError>
    ensures { Finishes (made_of coeffs_rows [] coeffs (left_of members)) members result }
{
    let step = TileStep::Coeffs {
        plane: members.required("plane"),
        x: members.required("x"),
        y: members.required("y"),
        tx_type: members.required("tx_type"),
        answer: members.required("a"),
    };
    members.finish(Item::Step(step))
}

fn lrf(mut members: Members) -> Result<Item, ShapeError>
    ensures { Finishes (made_of lrf_rows filter.none lrf (left_of members)) members result }
{
    let step = TileStep::Lrf {
        plane: members.required("plane"),
        answer: members.required("a"),
    };
    members.finish(Item::Step(step))
}

fn begin(mut members: Members) -> Result<Item, ShapeError>
    ensures { Finishes (made_of begin_rows tt begin (left_of members)) members result }
{
    let place = BlockOffset {
        x: members.required("x"),
        y: members.required("y"),
    };
    members.finish(Item::Begin(TileBlockOffset(place)))
}

fn end(members: Members, end: Item) -> Result<Item, ShapeError>
    ensures { Finishes (end_of end (left_of members)) members result }
{
    members.finish(end)
}
