// Expressions, their language and the items in which a pattern is written. But for the items theory alone: `specs` has the definitions, `proofs`
// the laws.
#![tactic(auto)]

ghost use Rattle.std.specs.Prelude.{◌≡◌};
ghost use Rattle.expressions.specs.Items.{arity};

// One item of a pattern: the empty string, one event of a set, or an operator on the operands before it.
#[derive(Clone, Copy, Debug, Default, PartialEq, Eq)]
pub enum Item {
    #[default]
    Empty,
    Events(u32),
    Sequence,
    Choice,
    Repeat,
}

impl Item {
    // How many operands it takes.
    pub fn arity(self) -> usize
        ensures { result ≡ arity self }
    {
        match self {
            Item::Empty | Item::Events(_) => 0,
            Item::Sequence | Item::Choice => 2,
            Item::Repeat => 1,
        }
    }
}
