//! Rules: what an entry becomes.
ghost use Rattle.std.specs.Prelude.{◌≡◌};

/// What an entry becomes, from the source's entry and its own: `made rule x y v` says that v is
/// what the rule makes of x and y.
pub trait Rule<S>: Copy {
    ghost made: { Self → S → S → S → Type 0 };

    fn apply(self, x: S, y: S) -> S
        ensures { made self x y result };
}

/// What an entry becomes, from its own value alone.
pub trait Revision<S>: Copy {
    ghost made: { Self → S → S → Type 0 };

    fn apply(self, y: S) -> S
        ensures { made self y result };
}

/// The source's entry, as it is stored.
#[derive(Clone, Copy)]
pub struct Replace;

impl<S: Copy> Rule<S> for Replace {
    ghost made = { λ _ x y v. v ≡ x };

    fn apply(self, x: S, _y: S) -> S {
        x
    }
}

/// One value for every entry.
#[derive(Clone, Copy)]
pub struct Fill<S> {
    pub value: S,
}

impl<S: Copy> Revision<S> for Fill<S> {
    ghost made = { λ rule y v. v ≡ rule.value };

    fn apply(self, _y: S) -> S {
        self.value
    }
}
