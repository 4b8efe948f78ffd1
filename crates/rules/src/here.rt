// Where an expression is evaluated: what is visible, what list it is an element of, and the code in progress.
// Document 01: "a list of definitions that are visible at each place", "Each belongs to the nearest enclosing code."
ghost use Rattle.std.specs.Prelude.{◌≡◌, ◌<◌};
ghost use Rattle.rules.specs.Settings.{at_top_level, in_list_of, showing, in_code_of};

use crate::scope::Scope;

// What list an expression is an element of: the top level, a data form, or another.
#[derive(Clone, Copy, Debug, PartialEq, Eq)]
pub enum Within {
    Top,
    Element,
    Inner,
}

// How many codes are in progress, how many arguments the nearest has, and where in the workspace they end.
// Kept: `count` beside the arguments, which lie on each call's stack, since memory is fixed.
#[derive(Clone, Copy, Debug, PartialEq, Eq)]
pub struct Frame {
    pub depth: usize,
    pub count: usize,
    pub end: usize,
}

#[derive(Clone, Copy, Debug, PartialEq, Eq)]
pub struct Here {
    pub scope: Scope,
    pub within: Within,
    pub frame: Frame,
}

impl Here {
    // Before the first expression.
    pub fn start() -> Self
        ensures { result ≡ at_top_level }
    {
        Self {
            scope: Scope {
                defined: 0,
                associated: 0,
            },
            within: Within::Top,
            frame: Frame {
                depth: 0,
                count: 0,
                end: 0,
            },
        }
    }

    // In another list.
    pub fn entering(self, within: Within) -> Self
        ensures { result ≡ in_list_of within self }
    {
        Self { within, ..self }
    }

    // With another scope.
    pub fn showing(self, scope: Scope) -> Self
        ensures { result ≡ showing scope self }
    {
        Self { scope, ..self }
    }

    // In a code that sees so much, and has so many arguments, which end there.
    pub fn called(self, scope: Scope, count: usize, end: usize) -> Self
        requires { self.frame.depth < 32 }
        ensures { result ≡ in_code_of scope count end self }
    {
        let depth = self.frame.depth + 1;
        Self {
            scope,
            within: Within::Inner,
            frame: Frame { depth, count, end },
        }
    }
}
