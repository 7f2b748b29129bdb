//! What the arguments of a call are given for.

ghost use Rattle.std.specs.Prelude.{◌≡◌, [], ◌∷◌, List, length, zip, IfSome, IfNone};
ghost use Rattle.syntax.specs.Tree.{Argument};
ghost use Rattle.jni.specs.JniFunction.{parameters_for};
ghost use Rattle.code_meaning.specs.Arguments.{paired};

use jni::{JniFunction, ParameterKind};

/// The parameters of the arguments of a call, from some argument on: a function's own, and what a method is given where the
/// function calls one.
#[derive(Clone, Copy)]
pub struct Parameters {
    own: &'static [ParameterKind],
    calls: bool,
}

impl Parameters {
    /// Those of all arguments of a call.
    #[tactic(auto, using(crate::proofs::Given::paired_alike))]
    pub fn of(function: JniFunction) -> Parameters
        ensures { (arguments : List Argument) → paired result arguments ≡ zip (parameters_for function (length arguments)) arguments }
    {
        Parameters {
            own: function.prototype().parameters,
            calls: function.calls_method(),
        }
    }

    /// The kind of the first, and those after it.
    pub fn first(self) -> Option<(ParameterKind, Parameters)>
        ensures some { IfSome result (λ f. (a : Argument) (arguments : List Argument)
            → paired self (a ∷ arguments) ≡ (f.0, a) ∷ paired f.1 arguments) }
        ensures none { IfNone result ((arguments : List Argument) → paired self arguments ≡ []) }
    {
        match self.own {
            [kind, own @ ..] => Some((
                *kind,
                Parameters {
                    own,
                    calls: self.calls,
                },
            )),
            [] if self.calls => Some((ParameterKind::Passed, self)),
            [] => None,
        }
    }
}
