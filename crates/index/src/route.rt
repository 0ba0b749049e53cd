//! How a list of rows is gone through.
ghost use Rattle.std.specs.Prelude.{◌≡◌};
ghost use Rattle.index.specs.Routes.{wrong_length, beyond, pair_of};

use crate::check::has_outside;

/// Entry i of the list names row k: which row of the destination becomes which of the source.
#[derive(Clone, Copy)]
pub enum Route {
    /// Row i becomes the source's row k.
    Gather,
    /// Row k becomes the source's row i.
    Scatter,
    /// Row k becomes the source's row k.
    Copy,
}

impl Route {
    /// A list of `len` entries does not go with `source` rows into `target` rows.
    pub(crate) fn has_wrong_length(self, len: usize, source: usize, target: usize) -> bool
        ensures { result ≡ wrong_length self len source target }
    {
        match self {
            Route::Gather => len != target,
            Route::Scatter => len != source,
            Route::Copy => false,
        }
    }

    /// Some index of the list names no row where the route reads it or writes it.
    // Inlined, so that a call tests for its own route alone.
    #[inline(always)]
    pub(crate) fn goes_beyond(self, list: &[usize], source: usize, target: usize) -> bool
        ensures { result ≡ beyond self list.now source target }
    {
        match self {
            Route::Gather => has_outside(list, source),
            Route::Scatter => has_outside(list, target),
            Route::Copy => has_outside(list, source) || has_outside(list, target),
        }
    }

    /// The source's row and the destination's for entry i, which names row k.
    pub(crate) fn rows(self, i: usize, k: usize) -> (usize, usize)
        ensures { result ≡ pair_of self i k }
    {
        match self {
            Route::Gather => (k, i),
            Route::Scatter => (i, k),
            Route::Copy => (k, k),
        }
    }
}
