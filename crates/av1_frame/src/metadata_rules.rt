// The rule of a metadata OBU.
ghost use Rattle.std.specs.Prelude.{◌≡◌};
ghost use Rattle.av1_geometry.specs.Rules.{first_broken};
ghost use Rattle.av1_frame.specs.MetadataRules.{metadata_rules, metadata_fits};

use crate::metadata::Metadata;
use crate::sequence::Sequence;
use av1_geometry::Rule;

/// The broken rule of a metadata OBU under its sequence: 50, or none.
pub fn check_metadata(metadata: &Metadata, seq: &Sequence) -> Option<Rule>
    ensures { result ≡ first_broken (metadata_rules metadata.now seq.now) }
{
    if metadata_fits(metadata, seq) {
        None
    } else {
        Some(Rule(50))
    }
}

#[tactic(auto, unfolding(crate::specs::MetadataRules::metadata_fits))]
fn metadata_fits(metadata: &Metadata, seq: &Sequence) -> bool
    ensures { result ≡ metadata_fits metadata.now seq.now }
{
    match metadata {
        Metadata::Cll => seq.content_light.is_some(),
        Metadata::Mdcv => seq.mastering_display.is_some(),
        Metadata::T35(message) => message.payload.len() <= 65535,
    }
}
