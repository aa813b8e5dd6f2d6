// The one list of refusals: why a plan, or a text, is turned down.
#![tactic(auto)]

ghost use Rattle.std.specs.Prelude.{◌≡◌};
ghost use Rattle.refusals.specs.Numbers.{number};

// The refusals in the order of their numbers, from 1 on. The last one stands right behind the sixth in the order in which they are asked.
#[derive(Clone, Copy, Debug, PartialEq, Eq)]
pub enum Refusal {
    TooShort,
    CountOutside,
    CutShort,
    Filled,
    WrongSizes,
    StrayEnd,
    SplitEnds,
    ExitLeft,
    NoChannel,
    ItemsCut,
    NoKind,
    StrangeEvent,
    FewOperands,
    OperandsLeft,
    Trailing,
    ManyStates,
    ShortRow,
    Unreadable,
    ManyItems,
    StrangeLetter,
    NoneEnds,
}

// The number of a refusal.
impl From<Refusal> for u32 {
    ghost from_gives = { λ r n. n ≡ number r };

    fn from(refusal: Refusal) -> u32 {
        refusal as u32 + 1
    }
}
