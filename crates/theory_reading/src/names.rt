//! The names of no commands, in the file's own module, and the modules that are entered.
ghost use Rattle.std.specs.Prelude.{◌≡◌, IfOk, OnOk};
ghost use Rattle.scope_terms.specs.Names.{reading};
ghost use Rattle.scope_terms.specs.Reading.{after_entering, no_reading};

use dk_model::{Listed, NoMemory};
use scope_terms::Names;
use std::alloc::Global;
use std::str::from_utf8;

/// Enters a module that is new: the next commands stand there.
pub fn enter_module(
    alloc: Global,
    names: &mut Names,
    module: &Option<Listed<u8>>,
) -> Result<(), NoMemory>
    ensures { OnOk result (reading names.new ≡ after_entering (reading names.old) «module».now) }
{
    let Some(name) = module else {
        names.enter(alloc, None)?;
        return Ok(());
    };
    // A plain name is ASCII, so this is a text.
    let Ok(text) = from_utf8(name.as_slice()) else {
        return Err(NoMemory);
    };
    names.enter(alloc, Some(text))?;
    Ok(())
}

/// No names, and the file's own module is entered.
pub fn names_in(alloc: Global, own: &Option<Listed<u8>>) -> Result<Names, NoMemory>
    ensures { IfOk result (λ names. reading names ≡ after_entering no_reading own.now) }
{
    let mut names = Names::new(alloc)?;
    enter_module(alloc, &mut names, own)?;
    Ok(names)
}
