//! The declared names, and the symbols that they stand for.

ghost use Rattle.std.specs.Prelude.{◌≡◌, ◌≢◌, ◌<◌, ◌≤◌, ◌+◌, [], ◌∷◌, ◌++◌, length, IfOk, IfSome};
ghost use Rattle.std.specs.Prelude.{OnErr, OnOk, Some, None, true, false, is_some, position, map};
ghost use Rattle.std.specs.Prelude.{slice_get};
ghost use Rattle.std.specs.Str.{bytes_eq};
ghost use Rattle.std.specs.List.{list_any};
ghost use Rattle.dz_syntax.specs.Names.{Declared, FitsSymbol, HasRoom, IsDeclared, IsName, declared};
ghost use Rattle.dz_syntax.specs.Names.{dependents, find, known, no_names, room, signature_of};
ghost use Rattle.dz_syntax.specs.declared.names.Group.TheVariants.{Dependents};

use dz_rank::{Operator, Signature, Symbol};
use indexmap::IndexSet;
use std::alloc::{AllocError, Global};
use std::marker::Model;

/// What a name is declared as.
#[derive(Clone, Copy, Debug, PartialEq, Eq)]
pub enum Group {
    Independents,
    Dependents,
}

/// The declared names, the independents first, numbered in order.
#[derive(Drop)]
pub struct Names {
    set: IndexSet<Vec<u8>>,
    independents: u8,
}

impl Model for Names {
    ghost use Rattle.std.specs.Prelude.{◌≤◌, ◌+◌, map, length};
    ghost use Rattle.dz_syntax.specs.Names.{Declared, IsDeclared};

    ghost Value = { Declared };

    ghost view = { λ n. record {
      all = map (λ name. name.items) n.set.keys;
      independents = n.independents;
    } };

    ghost invariant = { λ n. IsDeclared (record {
      all = map (λ name. name.items) n.set.keys;
      independents = n.independents;
    }) };
}

// The place of a name in the set.
fn place_of(set: &IndexSet<Vec<u8>>, name: &[u8]) -> Option<usize>
    ensures place { result
        ≡ position (λ n. bytes_eq name.now n) (map (λ n. n.items) set.now.keys) }
    ensures within { IfSome result (λ i. i < length (map (λ n. n.items) set.now.keys)) }
{
    set.get_index_of(name)
}

// Whether a name is in the set.
fn has_name(set: &IndexSet<Vec<u8>>, name: &[u8]) -> bool
    ensures { result ≡ list_any (λ n. bytes_eq name.now n) (map (λ n. n.items) set.now.keys) }
{
    set.contains(name)
}

// A new name, which comes last.
fn put_name(alloc: Global, set: &mut IndexSet<Vec<u8>>, name: &[u8]) -> Result<(), AllocError>
    requires { list_any (λ n. bytes_eq name.now n) (map (λ n. n.items) set.old.keys) ≡ false }
    ensures ok { OnOk result (map (λ n. n.items) set.new.keys
        ≡ map (λ n. n.items) set.old.keys ++ name.now ∷ []) }
    ensures err { OnErr result (map (λ n. n.items) set.new.keys
        ≡ map (λ n. n.items) set.old.keys) }
{
    let name = Vec::from_slice(alloc, name)?;
    let Ok(_) = set.insert_full(name) else {
        return Err(AllocError);
    };
    Ok(())
}

// The name at a place in the set.
fn name_at(set: &IndexSet<Vec<u8>>, index: usize) -> &[u8]
    requires { index < length (map (λ n. n.items) set.now.keys) }
    ensures { Some result.now ≡ slice_get (map (λ n. n.items) set.now.keys) index }
{
    match set.get_index(index) {
        Some(name) => name,
        None => unreachable!(),
    }
}

// How many names are in the set.
fn count(set: &IndexSet<Vec<u8>>) -> usize
    ensures { result ≡ length (map (λ n. n.items) set.now.keys) }
{
    set.len()
}

impl Names {
    /// No names.
    pub(crate) fn new(alloc: Global) -> Names
        ensures { result ≡ no_names }
    {
        Names {
            set: IndexSet::new(alloc),
            independents: 0,
        }
    }

    /// What is true of all names, for contracts: the call does nothing when it runs.
    pub fn opened(&self)
        ensures { IsDeclared self.now }
    {
        let _ = &self.set;
    }

    /// How many dependents are declared.
    pub(crate) fn dependents(&self) -> u8
        ensures value { result ≡ dependents self.now }
        ensures fits { result ≤ 16 }
    {
        (count(&self.set) - usize::from(self.independents)) as u8
    }

    /// How many independents and how many dependents are declared.
    pub fn signature(&self) -> Signature
        ensures value { result ≡ signature_of self.now }
        ensures few_independents { result.independents ≤ 4 }
        ensures few_dependents { result.dependents ≤ 16 }
    {
        Signature {
            independents: self.independents,
            dependents: self.dependents(),
        }
    }

    /// The name of an independent.
    pub fn independent(&self, i: u8) -> &[u8]
        requires { i < self.now.independents }
        ensures { Some result.now ≡ slice_get self.now.all i }
    {
        name_at(&self.set, usize::from(i))
    }

    /// The name of a dependent.
    pub fn dependent(&self, i: u8) -> &[u8]
        requires { i < dependents self.now }
        ensures { Some result.now ≡ slice_get self.now.all (self.now.independents + i) }
    {
        name_at(&self.set, usize::from(self.independents) + usize::from(i))
    }

    #[tactic(auto, unfolding(crate::specs::Names::find))]
    /// What a name stands for: an independent, or a dependent without derivation.
    pub fn find(&self, name: &[u8]) -> Option<Symbol>
        ensures value { result ≡ find self.now name.now }
        ensures fits { IfSome result (λ s. FitsSymbol s) }
    {
        let index = place_of(&self.set, name)?;
        let independents = usize::from(self.independents);
        if index < independents {
            return Some(Symbol::Independent(index as u8));
        }
        Some(Symbol::Derivative {
            dependent: (index - independents) as u8,
            operator: Operator { counts: [0; 4] },
        })
    }

    /// Whether a name is declared.
    pub(crate) fn is_known(&self, name: &[u8]) -> bool
        ensures { result ≡ known self.now name.now }
    {
        has_name(&self.set, name)
    }

    /// How many more dependents may be declared.
    pub(crate) fn room(&self) -> u8
        ensures value { result ≡ room self.now }
        ensures enough { HasRoom Dependents result self.now }
    {
        16 - self.dependents()
    }

    /// Declares a new name.
    pub(crate) fn declare(
        &mut self,
        alloc: Global,
        group: Group,
        name: &[u8],
    ) -> Result<(), AllocError>
        requires name { IsName name.now }
        requires new { known self.old name.now ≡ false }
        requires room { HasRoom group 1 self.old }
        ensures ok { OnOk result (self.new ≡ declared group self.old name.now) }
        ensures err { OnErr result (self.new ≡ self.old) }
    {
        put_name(alloc, &mut self.set, name)?;
        match group {
            Group::Independents => self.independents += 1,
            Group::Dependents => {}
        }
        Ok(())
    }
}
