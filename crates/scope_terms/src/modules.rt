//! What is known of each module_name: the names that it declares with their numbers, and how it stands.
ghost use Rattle.std.specs.Prelude.{◌≡◌, Some, is_some, reverse, not, if◌then◌else◌, IfOk, OnErr};
ghost use Rattle.std.specs.Map.{lookup};
ghost use Rattle.scope_terms.specs.Scopes.{Module, same_spelling};
ghost use Rattle.scope_terms.specs.Reading.{module_of};
ghost use Rattle.scope_terms.specs.Modules.{Changes, IsWithin, KeepsPlaces, first_place, known_of, module_at, no_modules, standing_so, unentered, with_name_in};

use crate::hashing::NameHasher;
use crate::table::Table;
use dk_model::{Listed, NoMemory};
use indexmap::IndexMap;
use std::alloc::Global;

/// How a module stands.
#[derive(Clone, Copy, Debug, PartialEq, Eq)]
pub enum Entered {
    /// It was never entered.
    New,
    /// It was entered and left.
    Known,
    /// It was entered and not left.
    Open,
}

/// What is known of a module.
#[derive(Drop)]
pub struct Declared {
    pub table: Table,
    pub standing: Entered,
}

/// Where a module is kept: the one without a name, or the one at this place.
#[derive(Clone, Copy)]
pub enum Place {
    Nameless,
    Named(usize),
}

/// The modules, each found by its name.
#[derive(Drop)]
pub struct Modules {
    pub named: IndexMap<Vec<u8>, Declared, NameHasher>,
    pub nameless: Declared,
}

/// The place of the module being read, the last of these; where none is entered, that of the one without a name.
pub(crate) fn last_place(entered: &[Place]) -> Place
    ensures { result ≡ first_place (reverse entered.now) }
{
    match entered.last() {
        Some(place) => *place,
        None => Place::Nameless,
    }
}

fn unentered(alloc: Global) -> Declared
    ensures { result ≡ unentered }
{
    Declared {
        table: Table::new(alloc),
        standing: Entered::New,
    }
}

impl Modules {
    pub(crate) fn new(alloc: Global) -> Modules
        ensures { no_modules result }
    {
        Modules {
            named: IndexMap::with_hasher(alloc, NameHasher::new()),
            nameless: unentered(alloc),
        }
    }

    pub(crate) fn standing(&self, module_name: Option<&str>) -> Entered
        ensures { result ≡ (known_of self.now (module_of module_name.entry)).standing }
    {
        match module_name {
            None => self.nameless.standing,
            Some(module_name) => match self.named.get(module_name.as_bytes()) {
                Some(declared) => declared.standing,
                None => Entered::New,
            },
        }
    }

    /// The number of a name in the module of this name.
    pub(crate) fn number_in(&self, module_name: &[u8], name: &[u8]) -> Option<u32>
        ensures { result ≡ lookup (same_spelling name.now) (known_of self.now (Some module_name.now)).table }
    {
        match self.named.get(module_name) {
            Some(declared) => declared.table.number(name),
            None => None,
        }
    }

    /// The number of a name in the module of this place.
    pub(crate) fn number_at(&self, place: Place, name: &[u8]) -> Option<u32>
        requires { IsWithin self.now place }
        ensures { result
            ≡ lookup (same_spelling name.now) (known_of self.now (module_at self.now place)).table }
    {
        match place {
            Place::Nameless => self.nameless.table.number(name),
            Place::Named(at) => match self.named.get_index(at) {
                Some((_, declared)) => declared.table.number(name),
                None => None,
            },
        }
    }

    /// Adds a name with this number to the module of this place, unless it has one there: whether it was added.
    pub(crate) fn add_at(
        &mut self,
        alloc: Global,
        place: Place,
        name: &Listed<u8>,
        number: u32,
    ) -> Result<bool, NoMemory>
        requires { IsWithin self.old place }
        ensures is_new { IfOk result (λ added. added ≡ not (is_some
            (lookup (same_spelling name.now) (known_of self.old (module_at self.old place)).table))) }
        ensures ok { IfOk result (λ added. let m = module_at self.old place in
            Changes self.old self.new m (if added
            then with_name_in (known_of self.old m) name.now number
            else known_of self.old m)) }
        ensures err { OnErr result (let m = module_at self.old place in
            Changes self.old self.new m (known_of self.old m)) }
    {
        match place {
            Place::Nameless => self.nameless.table.add(alloc, name, number),
            Place::Named(at) => {
                let (_, declared) = self.named.pair_mut(at);
                declared.table.add(alloc, name, number)
            }
        }
    }

    pub(crate) fn set_standing(&mut self, place: Place, standing: Entered)
        requires { IsWithin self.old place }
        ensures { let m = module_at self.old place in
            Changes self.old self.new m (standing_so (known_of self.old m) standing) }
    {
        match place {
            Place::Nameless => self.nameless.standing = standing,
            Place::Named(at) => {
                let (_, declared) = self.named.pair_mut(at);
                declared.standing = standing;
            }
        }
    }

    /// The place of a module; one is made where it has none.
    pub(crate) fn place(
        &mut self,
        alloc: Global,
        module_name: Option<&str>,
    ) -> Result<Place, NoMemory>
        ensures within { IfOk result (IsWithin self.new) }
        ensures place { IfOk result (λ p. module_at self.new p ≡ module_of module_name.entry) }
        ensures known { (m : Module) → known_of self.new m ≡ known_of self.old m }
        ensures places { KeepsPlaces self.old self.new }
    {
        let Some(name) = module_name else {
            return Ok(Place::Nameless);
        };
        if let Some((at, _, _)) = self.named.get_full(name.as_bytes()) {
            return Ok(Place::Named(at));
        }
        let at = self.named.len();
        let name = name.as_bytes().to_vec(alloc)?;
        self.named.insert(name, unentered(alloc))?;
        Ok(Place::Named(at))
    }
}
