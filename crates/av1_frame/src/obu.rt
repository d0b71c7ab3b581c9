// The kinds of OBUs.
ghost use Rattle.std.specs.Prelude.{◌≡◌};
ghost use Rattle.av1_frame.specs.Obu.{obu_type_number, obu_meta_type_number};

/// The kind of an OBU (`obu_type`, AV1 specification 6.2.2).
#[derive(Clone, Copy)]
pub enum ObuType {
    OBU_SEQUENCE_HEADER,
    OBU_TEMPORAL_DELIMITER,
    OBU_FRAME_HEADER,
    OBU_TILE_GROUP,
    OBU_METADATA,
    OBU_FRAME,
    OBU_REDUNDANT_FRAME_HEADER,
    OBU_TILE_LIST,
    OBU_PADDING,
}

impl ObuType {
    /// The number that an OBU header says.
    pub fn number(self) -> u8
        ensures { result ≡ obu_type_number self }
    {
        match self {
            ObuType::OBU_SEQUENCE_HEADER => 1,
            ObuType::OBU_TEMPORAL_DELIMITER => 2,
            ObuType::OBU_FRAME_HEADER => 3,
            ObuType::OBU_TILE_GROUP => 4,
            ObuType::OBU_METADATA => 5,
            ObuType::OBU_FRAME => 6,
            ObuType::OBU_REDUNDANT_FRAME_HEADER => 7,
            ObuType::OBU_TILE_LIST => 8,
            ObuType::OBU_PADDING => 15,
        }
    }
}

/// The kind of a metadata OBU (`metadata_type`, AV1 specification 6.7.1).
#[derive(Clone, Copy)]
pub enum ObuMetaType {
    OBU_META_HDR_CLL,
    OBU_META_HDR_MDCV,
    OBU_META_SCALABILITY,
    OBU_META_ITUT_T35,
    OBU_META_TIMECODE,
}

impl ObuMetaType {
    /// The number that a metadata OBU says.
    pub fn number(self) -> u8
        ensures { result ≡ obu_meta_type_number self }
    {
        match self {
            ObuMetaType::OBU_META_HDR_CLL => 1,
            ObuMetaType::OBU_META_HDR_MDCV => 2,
            ObuMetaType::OBU_META_SCALABILITY => 3,
            ObuMetaType::OBU_META_ITUT_T35 => 4,
            ObuMetaType::OBU_META_TIMECODE => 5,
        }
    }
}
