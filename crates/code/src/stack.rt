//! The operand stack.

ghost use Rattle.std.specs.Prelude.{◌≡◌, ◌==◌, ◌≤◌, ◌<◌, ℕ, List, [], ◌∷◌, length, reverse, slice_get};

use arrayvec::ArrayVec;
use std::marker::Model;

/// At most 64 words, seen as the list of them with the topmost first. It never allocates.
pub struct Stack {
    words: ArrayVec<u32, 64>,
}

impl Drop for Stack {
    fn drop(self) {
        let Stack { words } = self;
        drop(words);
    }
}

impl Model for Stack {
    ghost use Rattle.std.specs.Prelude.{List, ℕ, reverse, length, ◌≤◌};

    ghost Value = { List ℕ };

    ghost view = { λ s. reverse s.words.items };

    ghost invariant = { λ s. length s.words.items ≤ 64 };
}

impl Stack {
    /// The empty stack.
    pub fn new() -> Self
        ensures { result ≡ [] }
    {
        Stack {
            words: ArrayVec::new(),
        }
    }

    /// Puts a word on top.
    pub fn push(&mut self, word: u32)
        requires { length self.old < 64 }
        ensures { self.new ≡ word ∷ self.old }
    {
        self.words.push(word);
    }

    /// Whether there is no word.
    pub fn is_empty(&self) -> bool
        ensures { result ≡ (length self.now == 0) }
    {
        self.words.is_empty()
    }

    /// The topmost word.
    pub fn top(&self) -> u32
        requires { 0 < length self.now }
        ensures { (top : ℕ) (rest : List ℕ) → self.now ≡ top ∷ rest → result ≡ top }
    {
        self.words[self.words.len() - 1]
    }

    /// The word below the topmost, if there is one.
    pub fn below_top(&self) -> Option<u32>
        ensures { result ≡ slice_get self.now 1 }
    {
        let count = self.words.len();
        if count < 2 {
            return None;
        }
        Some(self.words[count - 2])
    }

    /// All words, the topmost last.
    pub fn words(&self) -> &[u32]
        ensures { result.now ≡ reverse self.now }
    {
        self.words.as_slice()
    }

    /// Another word in place of the topmost.
    pub fn replace_top(&mut self, word: u32)
        requires { 0 < length self.old }
        ensures { (top : ℕ) (rest : List ℕ) → self.old ≡ top ∷ rest → self.new ≡ word ∷ rest }
    {
        let last = self.words.len() - 1;
        self.words[last] = word;
    }

    /// Takes all words. Mostly there is none, or one, which is taken faster.
    pub fn clear(&mut self)
        ensures { self.new ≡ [] }
    {
        if self.words.len() == 1 {
            let _ = self.words.pop();
        } else {
            self.words.clear();
        }
    }

    /// Takes the topmost word.
    pub fn pop(&mut self) -> u32
        requires { 0 < length self.old }
        ensures words { self.old ≡ result ∷ self.new }
        ensures room { length self.new < 64 }
    {
        self.words.pop().unwrap()
    }
}
