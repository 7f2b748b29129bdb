//! The state after a statement, and on the paths of a test.

ghost use Rattle.std.specs.Prelude.{◌≡◌, ℕ, true, false, bytes_eq, OnOk};
ghost use Rattle.std.specs.List.{list_any};
ghost use Rattle.std.specs.Option.{option_map};
ghost use Rattle.syntax.specs.NullTests.{null_test_value};
ghost use Rattle.syntax.specs.Tree.{Plain};
ghost use Rattle.syntax.specs.Views.{test_tree, plain_tree};
ghost use Rattle.region_rules.specs.Regions.{where_true, where_false};
ghost use Rattle.region_rules.specs.RegionStates.{ReferenceAt, BufferIn, buffer_from, with_new, with_changed, with_some_changed, after_release, killed, state_after};
ghost use Rattle.region_states.specs.StatesInMemory.{names_of};
ghost use Rattle.region_states.specs.VariableChanges.{set_from};
ghost use Rattle.region_states.specs.NewNames.{tracked_name, plain_names, AreNew};
ghost use Rattle.region_states.specs.StateEffects.{got, made_value, release_value};
ghost use Rattle.region_states.specs.Judgements.{effected, declared, settled};
ghost use Rattle.region_states.specs.Changes.{made, taught_true, taught_false};

use crate::calls::{MadeCall, Release, deleted, got, plain_called, popped, released};
use crate::states::{FlowState, VariableState};
use crate::variables::Change;
use std::alloc::AllocError;
use syntax::{DeclaredType, Form, Name, NullTest, PlainStmt, Test, VariableType};

impl<'a> FlowState<'a> {
    /// A release frees its buffer, but not a copy that is committed.
    fn release(&mut self, release: Option<Release<'a>>)
        ensures { self.new ≡ after_release self.old (option_map release_value release.entry) }
    {
        match release {
            Some(r) => {
                if r.commits {
                    return;
                }
                match r.buffer {
                    Some(x) => self.free(x),
                    None => {}
                }
            }
            None => {}
        }
    }

    fn kill(&mut self, name: Option<&'a [u8]>)
        ensures { self.new ≡ with_some_changed self.old (option_map (λ x. x.now) name.entry) killed }
    {
        match name {
            Some(x) => self.change(x, Change::Kill),
            None => {}
        }
    }

    /// What a call leaves.
    fn take_effect(&mut self, call: Option<MadeCall<'a>>)
        ensures { self.new ≡ effected self.old (option_map made_value call.entry) }
    {
        if popped(call) {
            self.pop_frame();
            return;
        }
        self.release(released(call));
        self.kill(deleted(call));
    }

    /// A reference is declared.
    fn declare_reference(&mut self, name: &'a Name) -> Result<(), AllocError>
        requires { list_any (bytes_eq name.now) (names_of self.old) ≡ false }
        ensures { OnOk result (self.new ≡ with_new self.old name.now (ReferenceAt self.old.frames true)) }
    {
        let known = VariableState::Reference {
            level: self.level(),
            live: true,
        };
        self.add(name.as_bytes(), known)
    }

    /// A buffer is declared by a statement with this call.
    fn declare_buffer(
        &mut self,
        name: &'a Name,
        call: Option<MadeCall<'a>>,
    ) -> Result<(), AllocError>
        requires { list_any (bytes_eq name.now) (names_of self.old) ≡ false }
        ensures { OnOk result (self.new ≡ with_new self.old name.now
            (BufferIn (buffer_from (got (option_map made_value call.entry))))) }
    {
        self.add(name.as_bytes(), VariableState::buffer_after(got(call)))
    }

    /// A variable is set by a statement with this call.
    fn assign(&mut self, name: &Name, call: Option<MadeCall<'a>>) -> Result<(), AllocError>
        ensures { OnOk result (self.new ≡ with_changed self.old name.now
            (set_from (got (option_map made_value call.entry)))) }
    {
        self.set(name.as_bytes(), got(call))
    }

    /// A variable of this type is declared by a statement with this call.
    fn declare(
        &mut self,
        kind: DeclaredType,
        name: &'a Name,
        call: Option<MadeCall<'a>>,
    ) -> Result<(), AllocError>
        requires { AreNew (names_of self.old) (tracked_name kind name.now) }
        ensures { OnOk result (self.new ≡ declared self.old kind name.now (option_map made_value call.entry)) }
    {
        match kind {
            DeclaredType::Simple(kind) => match kind {
                VariableType::Reference(_) => self.declare_reference(name),
                VariableType::Uint32
                | VariableType::Jint
                | VariableType::Jsize
                | VariableType::Jboolean
                | VariableType::JfieldId
                | VariableType::JmethodId => Ok(()),
            },
            DeclaredType::Pointer(_) => self.declare_buffer(name, call),
            DeclaredType::ConstChars => self.declare_buffer(name, call),
        }
    }

    /// What is left when a variable is set or declared by a statement with this call.
    fn settle(&mut self, plain: &'a PlainStmt, call: Option<MadeCall<'a>>) -> Result<(), AllocError>
        requires { AreNew (names_of self.old) (plain_names (plain_tree plain.now)) }
        ensures { OnOk result ((line : ℕ) → self.new
            ≡ settled self.old (Plain line (plain_tree plain.now)) (option_map made_value call.entry)) }
    {
        match plain {
            PlainStmt::Declare(kind, x, _) => self.declare(*kind, x, call),
            PlainStmt::Assign(x, _) => self.assign(x, call),
            PlainStmt::DeclareArray(..)
            | PlainStmt::AssignElement(..)
            | PlainStmt::Perform(_)
            | PlainStmt::PutJint(_) => Ok(()),
        }
    }

    /// The state after a plain statement.
    pub fn pass(&mut self, plain: &'a PlainStmt) -> Result<(), AllocError>
        requires { AreNew (names_of self.old) (plain_names (plain_tree plain.now)) }
        ensures { OnOk result ((line : ℕ) → self.new ≡ state_after self.old (Plain line (plain_tree plain.now))) }
    {
        let call = plain_called(plain);
        self.take_effect(call);
        self.settle(plain, call)
    }

    /// What is known of a variable that turned out to be NULL, or not.
    fn learn(&mut self, name: &'a Name, null: bool)
        ensures { self.new ≡ with_changed self.old name.now (made null) }
    {
        if null {
            self.free(name.as_bytes());
        } else {
            self.change(name.as_bytes(), Change::Usable);
        }
    }

    /// What is known where the test holds.
    fn learn_true(&mut self, tested: Option<NullTest<'a>>)
        ensures { self.new ≡ taught_true self.old (option_map null_test_value tested.entry) }
    {
        match tested {
            Some(test) => self.learn(test.name, test.equal),
            None => {}
        }
    }

    /// What is known where the test doesn't hold.
    fn learn_false(&mut self, tested: Option<NullTest<'a>>)
        ensures { self.new ≡ taught_false self.old (option_map null_test_value tested.entry) }
    {
        match tested {
            Some(test) => self.learn(test.name, !test.equal),
            None => {}
        }
    }

    /// The state on the path where the test holds. More frames than can be counted are a want of memory.
    pub fn take_true(&mut self, test: &'a Test) -> Result<(), AllocError>
        ensures { OnOk result (self.new ≡ where_true self.old (test_tree test.now)) }
    {
        match test {
            Test::Expr(e) => {
                self.learn_true(e.whole().null_test());
                Ok(())
            }
            Test::Call(_) => { self.push_frame() }
        }
    }

    /// The state on the path where the test doesn't hold.
    pub fn take_false(&mut self, test: &'a Test)
        ensures { self.new ≡ where_false self.old (test_tree test.now) }
    {
        match test {
            Test::Expr(e) => self.learn_false(e.whole().null_test()),
            Test::Call(_) => {}
        }
    }
}
