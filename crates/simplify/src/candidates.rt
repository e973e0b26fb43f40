//! The variables that wait to be tried, the lightest first.
ghost use Rattle.std.specs.Prelude.{◌≡◌, ◌≤◌, ◌<◌, ◌-◌, ◌^◌, true, false, map, length, replicate, slice_set, IfOk};
ghost use Rattle.theory.specs.Literals.{IsVariable};
ghost use Rattle.theory.specs.Reading.{large, max_vars};
ghost use Rattle.theory.specs.Trails.{variables};
ghost use Rattle.simplify.specs.Entries.{weight_in};
ghost use Rattle.simplify.specs.Candidates.{first_of};
ghost use Rattle.simplify.specs.LeastKeys.{key_of, HasLeaves, AreKeys};

use crate::database::Database;
use crate::least_keys::{settle_all, write};
use std::alloc::{AllocError, Global};
use std::marker::Model;

/// A variable of more pairs of clauses isn't tried.
const MOST_PAIRS: u64 = 100;

/// The weights of the variables 1 to so many, and which of them wait.
#[derive(Drop)]
pub(crate) struct Candidates {
    weights: Vec<u64>,
    waits: Vec<bool>,
    // the tree of those that wait and have few pairs, by weight and then by variable
    keys: Vec<u64>,
}

impl Model for Candidates {
    ghost use Rattle.simplify.specs.Candidates.{Waiting};
    ghost use Rattle.simplify.specs.LeastKeys.{AreKeys};

    ghost Value = { Waiting };

    ghost view = { λ q. record { weights = q.weights.items; waits = q.waits.items } };

    ghost invariant = { λ q. AreKeys q.weights.items q.waits.items q.keys.items };
}

/// The key of a variable.
fn key_of(waits: bool, weight: u64, variable: u32) -> u64
    ensures { result ≡ key_of waits weight variable }
{
    if waits && weight <= MOST_PAIRS {
        weight * 4_294_967_296 + u64::from(variable)
    } else {
        u64::MAX
    }
}

/// The weights of all variables.
fn weights_of(alloc: Global, database: &Database) -> Result<Vec<u64>, AllocError>
    ensures { IfOk result (λ w. w.items ≡ map (weight_in database.now.entries) (variables database.now.vars)) }
{
    let vars = database.vars();
    let mut weights = Vec::with_capacity(alloc, vars as usize)?;
    for place in 0..vars {
        weights.push(database.weight(place + 1))?;
    }
    Ok(weights)
}

/// The tree of the variables with these weights, all of which wait.
fn keys_of(alloc: Global, weights: &[u64]) -> Result<Vec<u64>, AllocError>
    requires { length weights.now ≤ max_vars large }
    ensures { IfOk result (λ keys. AreKeys weights.now (replicate (length weights.now) true) keys.items) }
{
    let count = weights.len();
    let mut keys = vec![in alloc; u64::MAX; 2 * count]?;
    for place in 0..count {
        keys[count + place] = key_of(true, weights[place], place as u32 + 1);
    }
    settle_all(&mut keys);
    Ok(keys)
}

impl Candidates {
    /// All variables wait.
    pub(crate) fn open(alloc: Global, database: &Database) -> Result<Candidates, AllocError>
        ensures { IfOk result (λ q. q ≡ record {
          weights = map (weight_in database.now.entries) (variables database.now.vars);
          waits = map (λ v. true) (variables database.now.vars);
        }) }
    {
        let vars = database.vars();
        let weights = weights_of(alloc, database)?;
        let keys = keys_of(alloc, &weights)?;
        let waits = vec![in alloc; true; vars as usize]?;
        Ok(Candidates {
            weights,
            waits,
            keys,
        })
    }

    /// Writes a variable's key anew.
    fn renew(&mut self, variable: u32, waits: bool, weight: u64)
        requires { IsVariable (length self.old.waits) variable }
        ensures { self.new ≡ record {
          weights = slice_set self.old.weights (variable - 1) weight;
          waits = slice_set self.old.waits (variable - 1) waits;
        } }
    {
        let place = variable as usize - 1;
        self.weights[place] = weight;
        self.waits[place] = waits;
        let leaf = self.waits.len() + place;
        write(&mut self.keys, leaf, key_of(waits, weight, variable));
    }

    /// Gives a variable another weight.
    pub(crate) fn set_weight(&mut self, variable: u32, weight: u64)
        requires { IsVariable (length self.old.waits) variable }
        ensures { self.new ≡ record self.old { weights = slice_set self.old.weights (variable - 1) weight } }
    {
        let waits = self.waits[variable as usize - 1];
        self.renew(variable, waits, weight);
    }

    /// A variable waits from now on.
    pub(crate) fn wait(&mut self, variable: u32)
        requires { IsVariable (length self.old.waits) variable }
        ensures { self.new ≡ record self.old { waits = slice_set self.old.waits (variable - 1) true } }
    {
        let weight = self.weights[variable as usize - 1];
        self.renew(variable, true, weight);
    }

    /// A variable waits no more.
    pub(crate) fn leave(&mut self, variable: u32)
        requires { IsVariable (length self.old.waits) variable }
        ensures { self.new ≡ record self.old { waits = slice_set self.old.waits (variable - 1) false } }
    {
        let weight = self.weights[variable as usize - 1];
        self.renew(variable, false, weight);
    }

    /// The lightest of those that wait and have few pairs, of several the first.
    pub(crate) fn first(&self) -> Option<u32>
        ensures { result ≡ first_of self.now }
    {
        if self.waits.is_empty() {
            return None;
        }
        let key = self.keys[1];
        if key == u64::MAX {
            None
        } else {
            Some((key % 4_294_967_296) as u32)
        }
    }
}
