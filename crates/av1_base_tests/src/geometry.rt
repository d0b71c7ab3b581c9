// Sizes, modes, vectors, places and tables.
use av1_geometry::{
    BlockOffset, BlockSize, CFLParams, CFLSign, ChromaSampling, FrameType, GlobalMVMode,
    MotionVector, MvJointType, MvSubpelPrecision, OutOfMemory, PartitionType, PixelRange,
    PlaneBlockOffset, PlaneConfig, PlaneOffset, PlaneSuperBlockOffset, PredictionMode, RefType,
    ReferenceMode, SuperBlockOffset, TileBlockOffset, TileSuperBlockOffset, TxClass, TxSet, TxSize,
    TxType, av1_get_coded_tx_size, av1_get_mv_joint, cdf, cdf_2d, cdf_3d, cdf_4d, cdf_5d,
    get_mv_class, get_tx_set, get_tx_set_index, has_chroma, log_in_base_2, mv_class_base,
    mv_joint_horizontal, mv_joint_vertical, uv_intra_mode_to_tx_type_context,
};
use std::test::Fail;

#[test]
fn the_joint_sign_tells_both_signs_and_their_contexts(rt: HostRuntime) {
    let signs = [
        CFLSign::CFL_SIGN_ZERO,
        CFLSign::CFL_SIGN_NEG,
        CFLSign::CFL_SIGN_POS,
    ];
    let contexts = [[0, 0, 0, 1, 2, 3, 4, 5], [0, 3, 0, 1, 4, 0, 2, 5]];
    for j in 0..8 {
        let both = CFLParams {
            sign: [signs[(j + 1) / 3], signs[(j + 1) % 3]],
            scale: [1, 1],
        };
        assert!(rt; both.is_coded(0) || both.is_coded(1));
        assert_eq!(rt; both.joint_sign() as usize, j);
        for uv in 0..2 {
            if both.is_coded(uv) {
                assert_eq!(rt; both.context(uv), contexts[uv][j]);
            }
        }
    }
}

#[test]
fn factors_are_kept_by_sign_and_size(rt: HostRuntime) {
    for (u, v) in [(-255, 255), (-1, 0), (0, 16)] {
        let both = CFLParams::from_alpha(u, v);
        assert_eq!(rt; (both.alpha(0), both.alpha(1)), (u, v));
    }
    let default = CFLParams::default();
    assert_eq!(rt; default, CFLParams::from_alpha(-1, 0));
    assert_eq!(rt; default.index(0), 0);
}

#[test]
fn cdfs_are_complements_and_then_zeros(rt: HostRuntime) {
    assert_eq!(rt;
        cdf::<4, 5>([2000, 10000, 32768, 0]),
        [30768, 22768, 0, 32768, 0]
    );
    assert_eq!(rt; cdf::<0, 5>([]), [0, 0, 0, 0, 0]);
    assert_eq!(rt; cdf::<1, 5>([1]), [32767, 0, 0, 0, 0]);
    assert_eq!(rt; cdf::<4, 5>([1, 2, 3, 4]), [32767, 32766, 32765, 32764, 0]);
    assert_eq!(rt; cdf_2d::<1, 2, 2>([[1], [2]]), [[32767, 0], [32766, 0]]);
    assert_eq!(rt;
        cdf_3d::<1, 2, 1, 2>([[[1]], [[2]]]),
        [[[32767, 0]], [[32766, 0]]]
    );
    assert_eq!(rt; cdf_4d::<1, 2, 1, 1, 1>([[[[1]]]]), [[[[32767, 0]]]]);
    assert_eq!(rt;
        cdf_5d::<2, 4, 2, 1, 1, 1>([[[[[1000, 2000], [3000, 4000]]]]]),
        [[[[[31768, 30768, 0, 0], [29768, 28768, 0, 0]]]]]
    );
}

#[test]
fn vectors_have_joints_and_classes(rt: HostRuntime) {
    assert_eq!(rt; get_mv_class(15), (0, 15));
    assert_eq!(rt; get_mv_class(16), (1, 0));
    assert_eq!(rt; get_mv_class(8192), (10, 0));
    assert_eq!(rt; mv_class_base(10), 8192);
    assert_eq!(rt;
        (log_in_base_2(0), log_in_base_2(255), log_in_base_2(256)),
        (0, 7, 8)
    );
    let across = MotionVector { row: 0, col: -8 };
    assert_eq!(rt; av1_get_mv_joint(across), MvJointType::MV_JOINT_HNZVZ);
    assert!(rt; mv_joint_horizontal(MvJointType::MV_JOINT_HNZVZ));
    assert!(rt; !mv_joint_vertical(MvJointType::MV_JOINT_HNZVZ));
    assert!(rt; across.is_valid());
    assert!(rt; !MotionVector { row: 16384, col: 0 }.is_valid());
    assert!(rt; MvSubpelPrecision::MV_SUBPEL_NONE < MvSubpelPrecision::MV_SUBPEL_LOW_PRECISION);
}

#[test]
fn sizes_follow_from_sides(rt: HostRuntime) {
    let wide = BlockSize::BLOCK_32X16;
    assert_eq!(rt;
        (
            wide.width(),
            wide.height(),
            wide.width_mi(),
            wide.height_mi()
        ),
        (32, 16, 8, 4)
    );
    assert_eq!(rt; (wide.area(), wide.area_log2()), (512, 9));
    assert_eq!(rt; wide.tx_size(), TxSize::TX_32X16);
    assert_eq!(rt; BlockSize::BLOCK_128X64.tx_size(), TxSize::TX_64X64);
    assert_eq!(rt;
        wide.subsize(PartitionType::PARTITION_VERT),
        Some(BlockSize::BLOCK_16X16)
    );
    assert_eq!(rt; wide.subsize(PartitionType::PARTITION_HORZ_4), None);
    assert_eq!(rt; wide.subsampled_size(1, 0), Some(BlockSize::BLOCK_16X16));
    assert_eq!(rt;
        BlockSize::BLOCK_4X8.subsampled_size(1, 1),
        Some(BlockSize::BLOCK_4X4)
    );
    assert_eq!(rt; BlockSize::from_number(21), Some(BlockSize::BLOCK_64X16));
    assert_eq!(rt; BlockSize::from_number(22), None);
    assert!(rt; BlockSize::BLOCK_8X8 <= wide && !(BlockSize::BLOCK_8X32 <= wide));
    assert!(rt; !wide.is_sqr() && wide.is_rect() && wide.cfl_allowed());
    let tall = TxSize::TX_16X64;
    assert_eq!(rt;
        (tall.sqr(), tall.sqr_up()),
        (TxSize::TX_16X16, TxSize::TX_64X64)
    );
    assert_eq!(rt; tall.block_size(), BlockSize::BLOCK_16X64);
    assert_eq!(rt; av1_get_coded_tx_size(tall), TxSize::TX_16X32);
    assert_eq!(rt; tall.sub_tx_size(), TxSize::TX_16X32);
    assert!(rt; TxSize::TX_8X8 < tall);
}

#[test]
fn types_of_transforms_come_from_their_sets(rt: HostRuntime) {
    assert_eq!(rt;
        get_tx_set(TxSize::TX_64X16, true, false),
        TxSet::TX_SET_DCTONLY
    );
    assert_eq!(rt;
        get_tx_set(TxSize::TX_16X16, false, false),
        TxSet::TX_SET_INTRA_2
    );
    assert_eq!(rt; get_tx_set_index(TxSize::TX_32X32, true, false), 3);
    assert_eq!(rt; TxSet::TX_SET_INTRA_1.index_of(TxType::ADST_ADST), 4);
    assert_eq!(rt; TxSet::TX_SET_INTRA_1.size(), 7);
    assert!(rt; !TxSet::TX_SET_INTRA_1.uses(TxType::FLIPADST_DCT));
    assert_eq!(rt; TxType::H_DCT.class(), TxClass::TX_CLASS_HORIZ);
    assert_eq!(rt;
        uv_intra_mode_to_tx_type_context(PredictionMode::UV_CFL_PRED),
        TxType::DCT_DCT
    );
}

#[test]
fn enums_have_their_numbers(rt: HostRuntime) {
    assert_eq!(rt;
        PredictionMode::from_number(26),
        Some(PredictionMode::NEAR_NEW0MV)
    );
    assert_eq!(rt; PredictionMode::GLOBAL_GLOBALMV.number(), 32);
    assert!(rt; PredictionMode::NEW_NEAR2MV.has_newmv() && !PredictionMode::GLOBALMV.has_newmv());
    assert_eq!(rt; RefType::from_number(8), Some(RefType::NONE_FRAME));
    assert!(rt; RefType::NONE_FRAME.is_bwd_ref() && !RefType::GOLDEN_FRAME.is_bwd_ref());
    assert_eq!(rt; RefType::ALTREF_FRAME.to_index(), 6);
    assert_eq!(rt; FrameType::from_number(2), Some(FrameType::INTRA_ONLY));
    assert_eq!(rt; GlobalMVMode::from_number(4), None);
    assert_eq!(rt; ReferenceMode::SELECT.number(), 2);
    assert_eq!(rt; PixelRange::from_number(1), Some(PixelRange::Full));
    let planes = ChromaSampling::Cs422;
    assert_eq!(rt; (planes.xdec(), planes.ydec(), planes.planes()), (1, 0, 3));
}

#[test]
fn places_are_moved_and_scaled(rt: HostRuntime) {
    let half = PlaneConfig { xdec: 1, ydec: 1 };
    let block = TileBlockOffset(BlockOffset { x: 35, y: 18 });
    assert_eq!(rt;
        block.sb_offset(),
        TileSuperBlockOffset(SuperBlockOffset { x: 2, y: 1 })
    );
    assert_eq!(rt; block.plane_offset(&half), PlaneOffset { x: 68, y: 36 });
    assert_eq!(rt; block.to_luma_plane_offset(), PlaneOffset { x: 140, y: 72 });
    assert_eq!(rt; block.y_in_sb(), 2);
    assert_eq!(rt;
        block.with_offset(-35, 1),
        TileBlockOffset(BlockOffset { x: 0, y: 19 })
    );
    let superblock = PlaneSuperBlockOffset(SuperBlockOffset { x: 2, y: 1 });
    assert_eq!(rt;
        superblock.block_offset(3, 2),
        PlaneBlockOffset(BlockOffset { x: 35, y: 18 })
    );
    assert_eq!(rt;
        superblock.plane_offset(&half),
        PlaneOffset { x: 64, y: 32 }
    );
    assert_eq!(rt;
        superblock + superblock,
        PlaneSuperBlockOffset(SuperBlockOffset { x: 4, y: 2 })
    );
}

#[test]
fn the_last_of_two_small_blocks_has_the_chroma(rt: HostRuntime) {
    let small = BlockSize::BLOCK_4X8;
    for (x, sampling, want) in [
        (0, ChromaSampling::Cs420, false),
        (1, ChromaSampling::Cs420, true),
        (1, ChromaSampling::Cs400, false),
    ] {
        let bo = TileBlockOffset(BlockOffset { x, y: 0 });
        assert_eq!(rt; has_chroma(bo, small, 1, 1, sampling), want);
    }
}

#[test]
fn want_of_memory_is_printed(rt: HostRuntime) -> Result<(), Fail> {
    assert_eq!(rt;
        OutOfMemory.to_string(rt.alloc())?.as_str(),
        "out of memory"
    );
    Ok(())
}
