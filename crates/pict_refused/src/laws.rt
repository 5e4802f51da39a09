// Codes of the phases before a run. Each is a function that does nothing: its contract is the law.

ghost use Rattle.pict_refused.specs.Laws.{FrontCodes, GatheringCodes};

/// Over any shelf the texts that a file reaches by its imports are refused with B1, L1 to L5, P1, P2 and I1 to I4, and nothing else.
pub fn law_gathering_codes()
    ensures { GatheringCodes }
{}

/// Over any shelf all phases before a run refuse with B1, L1 to L5, P1, P2, I1 to I4, S1 to S4, K1 to K5, Y1 to Y16 and C1, and
/// nothing else.
pub fn law_front_codes()
    ensures { FrontCodes }
{}
