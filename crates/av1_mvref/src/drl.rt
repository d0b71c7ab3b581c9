// The context of a choice among candidates.
ghost use Rattle.std.specs.Prelude.{◌≡◌, ◌+◌, ◌<◌, ◌≤◌, length};
ghost use Rattle.av1_mvref.specs.Candidates.{drl_context};

use crate::candidate::CandidateMV;
use av1_geometry::REF_CAT_LEVEL;

/// How many of a candidate and the next no near neighbour gave, 0 to 2: the context of the choice between them
/// (AV1 specification, 7.10.2.14, `DrlCtxStack`).
///
/// `idx` is below the list's length minus 1.
pub fn drl_ctx(list: &[CandidateMV], idx: usize) -> usize
    requires { idx + 1 < length list.now }
    ensures value { result ≡ drl_context list.now idx }
    ensures bound { result ≤ 2 }
{
    usize::from(list[idx].weight < REF_CAT_LEVEL)
        + usize::from(list[idx + 1].weight < REF_CAT_LEVEL)
}
