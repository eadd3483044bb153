//! The module and the name with which a number was declared.
ghost use Rattle.std.specs.Prelude.{◌≡◌, Some, length, slice_get};
ghost use Rattle.std.specs.Option.{option_map};
ghost use Rattle.scope_terms.specs.Modules.{IsWithin, known_of, module_at, spelt_at};
ghost use Rattle.scope_terms.specs.Reading.{module_of, spelt_word};

use crate::modules::{Modules, Place};

/// Where the name of a symbol is kept: at this place among the names of the module of that place.
#[derive(Clone, Copy)]
pub struct Symbol {
    pub place: Place,
    pub at: usize,
}

impl Modules {
    /// The name of the module of a place; None is the one without a name.
    pub(crate) fn name_at(&self, place: Place) -> Option<&[u8]>
        ensures { module_of result ≡ module_at self.now place }
    {
        match place {
            Place::Nameless => None,
            Place::Named(at) => match self.named.get_index(at) {
                Some((name, _)) => Some(name.as_slice()),
                None => None,
            },
        }
    }

    /// How many names the module of this place declares.
    pub(crate) fn names_at(&self, place: Place) -> usize
        requires { IsWithin self.now place }
        ensures { result ≡ length (known_of self.now (module_at self.now place)).table }
    {
        match place {
            Place::Nameless => self.nameless.table.len(),
            Place::Named(at) => match self.named.get_index(at) {
                Some((_, declared)) => declared.table.len(),
                None => 0,
            },
        }
    }

    /// The name that is kept in the module of this place, at that place.
    fn name_in(&self, place: Place, at: usize) -> Option<&[u8]>
        requires { IsWithin self.now place }
        ensures { option_map (λ x. x.now) result ≡ option_map (λ e. e.0)
            (slice_get (known_of self.now (module_at self.now place)).table at) }
    {
        match place {
            Place::Nameless => self.nameless.table.name(at),
            Place::Named(index) => match self.named.get_index(index) {
                Some((_, declared)) => declared.table.name(at),
                None => None,
            },
        }
    }

    /// The module and the name of a symbol.
    pub(crate) fn spelling_at(&self, symbol: Symbol) -> Option<(Option<&[u8]>, &[u8])>
        requires { IsWithin self.now symbol.place }
        ensures { option_map spelt_word result ≡ spelt_at self.now (Some symbol) }
    {
        match self.name_in(symbol.place, symbol.at) {
            Some(name) => Some((self.name_at(symbol.place), name)),
            None => None,
        }
    }
}
