//! Laws of histories. Each is the contract of a function that does nothing.
ghost use Rattle.histories.specs.Laws.{GoOnAlike, OwnDeedsAdd, OthersDeedsStay, TruthAppends, LegalityAppends, IsLegalAtEachPlace};

/// What is asked of each element of a list, after those before it. It is never made.
pub trait Judge {
    ghost use Rattle.std.specs.Prelude.{List};

    /// The elements.
    type Element;

    ghost passes: { Self.Element → List Self.Element → Type 0 };
}

/// A history begins itself, beginnings of beginnings are beginnings, and of two beginnings of one history the shorter
/// begins the longer. The entries and the roll of a beginning begin those of the whole.
pub fn histories_go_on<B, E, R>()
    ensures { GoOnAlike B E R }
{}

/// What a seat does more comes behind what it did, and changes nothing of what another did.
pub fn deeds_stand_once<E, R>()
    ensures own { OwnDeedsAdd E R }
    ensures others { OthersDeedsStay E R }
{}

/// What is true, or legal, of element after element is so of two parts as well as of the whole, and a list is legal
/// exactly where each of its elements may follow those before it.
pub fn judged_in_turn<J: Judge>()
    ensures truth { TruthAppends J.passes }
    ensures legality { LegalityAppends (λ past e. J.passes e past) }
    ensures places { IsLegalAtEachPlace (λ past e. J.passes e past) }
{}
