// What a metadata OBU holds.
use std::marker::Model;

/// A message by ITU-T T.35 (AV1 specification 5.8.2). Contracts see the payload as a plain list.
#[derive(Drop)]
pub struct T35 {
    pub country_code: u8,

    /// Said only where the country code is 255.
    pub country_code_extension_byte: u8,

    /// At most 65535 bytes.
    pub payload: Vec<u8>,
}

impl Model for T35 {
    ghost use Rattle.av1_frame.specs.Message.{Message};

    ghost Value = { Message };

    ghost use Rattle.av1_frame.specs.MessageView.{message_of};

    ghost view = { message_of };
}

/// A metadata OBU of a unit.
#[derive(Drop)]
pub enum Metadata {
    /// How light the content is, as the sequence says.
    Cll,

    /// The mastering display, as the sequence says.
    Mdcv,

    T35(T35),
}
