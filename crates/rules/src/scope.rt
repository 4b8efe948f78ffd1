// What is visible where an expression is evaluated: by value, how many definitions and how many associations are; their entries stand in lent arrays.
// Document 01: "a list of definitions that are visible at each place".
ghost use Rattle.std.specs.Prelude.{◌≡◌, List, ℕ, ◌+◌, ◌≤◌, ◌<◌, length, set, eqb};
ghost use Rattle.spec.specs.Expr.{some};
ghost use Rattle.spec.specs.Plan.{Namespace};
ghost use Rattle.rules.specs.Entries.{function_bit, definition, association};
ghost use Rattle.rules.specs.Scope.{latest, find};
ghost use Rattle.rules.specs.Associations.{Linked};

use crate::entries;
use workspace::packed;

// Of `definitions` and of `associations` the first so many are visible; the latest is the last.
// Kept: arrays with a length beside them, since memory is fixed and a scope is handed on by value.
// Kept: no invariant for the limits, since `up_to` takes every number.
#[derive(Clone, Copy, Debug, PartialEq, Eq)]
pub struct Scope {
    pub defined: usize,
    pub associated: usize,
}

// What a reference's key is defined as: a value, which stands in the workspace from one byte up to another, or a function, by the row of its code and
// the number of definitions that it sees.
#[derive(Clone, Copy, Debug, PartialEq, Eq)]
pub enum Content {
    Value { from: usize, to: usize },
    Function { code: usize, visible: usize },
}

impl Scope {
    // Kept: `add` and `associate` share one assignment, which a generic function over N would not shorten.

    // One more definition, written past those that are visible.
    pub fn add(self, definitions: &mut [u64; 256], key: u32, content: u32) -> Self
        requires { self.defined < 256 }
        ensures { (definitions.new ≡ set definitions.old self.defined (definition key content))
            × (result ≡ record { defined = self.defined + 1; associated = self.associated }) × (length definitions.old ≡ 256) }
    {
        definitions[self.defined] = entries::definition(key, content);
        Self {
            defined: self.defined + 1,
            ..self
        }
    }

    // One more association, written past those that are visible.
    pub fn associate(self, associations: &mut [u64; 64], marker: u32, id: u32) -> Self
        requires { self.associated < 64 }
        ensures { (associations.new ≡ set associations.old self.associated (association marker id))
            × (result ≡ record { defined = self.defined; associated = self.associated + 1 }) × (length associations.old ≡ 64) }
    {
        associations[self.associated] = entries::association(marker, id);
        Self {
            associated: self.associated + 1,
            ..self
        }
    }

    // The latest definition of a reference's key.
    pub fn look_up(self, definitions: &[u64; 256], key: u32) -> Option<Content>
        requires { (self.defined ≤ 256) × (key < function_bit) }
        ensures { result ≡ find key (latest definitions.now self.defined) }
    {
        for i in (0..self.defined).rev() {
            let entry = definitions[i];
            let k = entries::key_in(entry);
            if k == key {
                let part = entries::content_in(entry);
                return Some(Content::Value {
                    from: packed::packed_from(part),
                    to: packed::packed_to(part),
                });
            }
            if k == key + entries::FUNCTION {
                // Kept: `as`, for which there is no `From`.
                return Some(Content::Function {
                    code: entries::content_in(entry) as usize,
                    visible: i,
                });
            }
        }
        None
    }

    // Whether a marker is associated.
    pub fn has_marker(self, associations: &[u64; 64], marker: u32) -> bool
        requires { self.associated ≤ 64 }
        ensures { (s : List ℕ) (ks : List Namespace) → Linked s (latest associations.now self.associated) ks → result ≡ some (λ k. eqb k.marker marker) ks }
    {
        associations[..self.associated]
            .iter()
            .any(|entry| entries::marker_in(*entry) == u64::from(marker))
    }

    // The first so many definitions, and the same associations: what a function sees.
    pub fn up_to(self, defined: usize) -> Self
        ensures { result ≡ record { defined = defined; associated = self.associated } }
    {
        Self { defined, ..self }
    }
}
