// What a kind of token says of all its tokens. Nothing here runs.

ghost use Rattle.pict_follow.specs.Follow.{KindsDecide};

/// Where a token may stand behind others, so may each one of its kind, whatever it says and wherever it stands: so what is told
/// of a kind is told of each of its tokens.
pub fn law_kinds_decide()
    ensures { KindsDecide }
{}
