//! Calls in progress that are moved by their addresses.

ghost use Rattle.std.specs.Prelude.{◌≡◌, IfOk};
ghost use Rattle.std.specs.Borrow.{sem};
ghost use Rattle.machine_threads.specs.Boxed.{LendsActivation};

use machine_scenes::activation::Activation;
use std::alloc::{AllocError, Global};
use std::marker::Model;

/// A call in progress in memory of its own, seen as that call. A thread moves it at each entry and each return, which is cheap so.
pub struct BoxedActivation {
    activation: Box<Activation>,
}

impl Model for BoxedActivation {
    ghost use Rattle.machine_scenes.specs.declared.activation.Activation.{Activation};

    ghost Value = { Activation };

    ghost view = { λ b. b.activation.value };
}

impl Drop for BoxedActivation {
    fn drop(self) {
        let BoxedActivation { activation } = self;
        drop(activation);
    }
}

impl BoxedActivation {
    /// Puts a call into memory of its own.
    pub fn of(alloc: Global, activation: Activation) -> Result<BoxedActivation, AllocError>
        ensures { IfOk result (λ boxed. boxed ≡ activation) }
    {
        Ok(BoxedActivation {
            activation: Box::new(alloc, activation)?,
        })
    }

    /// The call.
    #[inline(always)]
    pub fn get(&self) -> &Activation
        ensures { result.now ≡ self.now }
    {
        &self.activation
    }

    /// The call, to be changed.
    #[inline(always)]
    pub fn get_mut(&mut self) -> &mut Activation
        ensures* lends { sem 𝓛 (LendsActivation self.entry result) }
        ensures value { result.now ≡ self.old }
    {
        &mut self.activation
    }
}
