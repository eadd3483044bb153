//! Symbols have the words by which they are named in the module being read.
ghost use Rattle.std.specs.Prelude.{◌≡◌, None, if◌then◌else◌};
ghost use Rattle.scope_terms.specs.Names.{reading};
ghost use Rattle.scope_terms.specs.Reading.{current, module_of};
ghost use Rattle.scope_terms.specs.Scopes.{same_module};
ghost use Rattle.term_print.specs.Words.{word_of};

use crate::source::Words;
use scope_terms::Names;

// The name of a module, unless it is the own one.
fn qualifier<'a>(module_name: Option<&'a [u8]>, own: Option<&[u8]>) -> Option<&'a [u8]>
    ensures { module_of result
        ≡ (if same_module (module_of module_name.entry) (module_of own.entry) then None
        else module_of module_name.entry) }
{
    match module_name {
        None => None,
        Some(module_name) => match own {
            None => Some(module_name),
            Some(own) => {
                if module_name == own {
                    None
                } else {
                    Some(module_name)
                }
            }
        },
    }
}

impl Words for Names {
    ghost word = { λ names. word_of (reading names).symbols (current (reading names)) };

    fn module_name(&self, symbol: u32) -> Option<&[u8]> {
        match self.spelt(symbol) {
            Some((module_name, _)) => qualifier(module_name, self.current()),
            None => None,
        }
    }

    fn spelling(&self, symbol: u32) -> &[u8] {
        match self.spelt(symbol) {
            Some((_, name)) => name,
            None => b"".as_slice(),
        }
    }
}
