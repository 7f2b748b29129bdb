//! The names of the functions that implement native methods, after the JNI Specification, chapter 2,
//! "Resolving Native Method Names".

ghost use Rattle.std.specs.Prelude.{◌≡◌, ◌<◌, ◌+◌, length, take, drop, IfSome, IfNone, IfOk, OnOk, false, true, ◌++◌, ◌∷◌, Some, None, flat_map, is_some, List, ℕ, if◌then◌else◌};
ghost use Rattle.std.specs.Option.{option_map};
ghost use Rattle.base.specs.Bytes.{is_letter};
ghost use Rattle.class_rules.specs.Mangling.{escaped_byte, mangle, unescaped, split_last, unmangle};
ghost use Rattle.class_rules.specs.MangledNames.{is_word, reads_mangled, reads_name};

use std::alloc::{AllocError, Global};

const PREFIX: &[u8; 5] = b"Java_";

fn is_letter(b: u8) -> bool
    ensures { result ≡ is_letter b }
{
    matches!(b, b'A'..=b'Z' | b'a'..=b'z')
}

fn is_word(b: u8) -> bool
    ensures { result ≡ is_word b }
{
    is_letter(b) || matches!(b, b'0'..=b'9')
}

#[inline]
fn push_escaped_byte(out: &mut Vec<u8>, b: u8) -> Result<(), AllocError>
    ensures { OnOk result (out.new.items ≡ out.old.items ++ escaped_byte b) }
{
    if b == b'_' {
        return out.extend_from_slice(b"_1");
    }
    if b == b'/' {
        out.push(b'_')?;
        return Ok(());
    }
    out.push(b)?;
    Ok(())
}

fn push_escaped(out: &mut Vec<u8>, path: &[u8]) -> Result<(), AllocError>
    ensures { OnOk result (out.new.items ≡ out.old.items ++ flat_map escaped_byte path.now) }
{
    for b in path {
        push_escaped_byte(out, *b)?;
    }
    Ok(())
}

/// The name of the function that implements a class's native method: `Java_`, the class, `_` and the method, where
/// `/` becomes `_` and an underscore `_1`.
pub fn mangle(alloc: Global, class: &[u8], method: &[u8]) -> Result<Vec<u8>, AllocError>
    ensures { IfOk result (λ name. name.items ≡ mangle class.now method.now) }
{
    let mut name = Vec::from_slice(alloc, PREFIX)?;
    push_escaped(&mut name, class)?;
    push_escaped(&mut name, b"/")?;
    push_escaped(&mut name, method)?;
    Ok(name)
}

/// Whether a name is that of a native method. It takes no memory.
pub fn is_mangled(name: &[u8]) -> bool
    ensures { result ≡ is_some (unmangle name.now) }
{
    reads_mangled(name)
}

fn reads_mangled(name: &[u8]) -> bool
    ensures { result ≡ reads_mangled name.now }
{
    match name {
        [b'J', b'a', b'v', b'a', b'_', first, rest @ ..] => is_letter(*first) && reads_name(rest),
        _ => false,
    }
}

fn reads_name(bytes: &[u8]) -> bool
    ensures { result ≡ reads_name bytes.now false }
{
    let mut underscore = false;
    let mut separated = false;
    for b in bytes {
        let b = *b;
        if underscore {
            if is_letter(b) {
                separated = true;
            } else if b != b'1' {
                return false;
            }
            underscore = false;
        } else if b == b'_' {
            underscore = true;
        } else if !is_word(b) {
            return false;
        }
    }
    separated && !underscore
}

/// Adds what an underscore and the byte after it stand for, and says whether the byte is an underscore whose next byte is
/// still to come.
#[inline]
fn push_after_underscore(path: &mut Vec<u8>, b: u8) -> Result<bool, AllocError>
    ensures { IfOk result (λ pending. (rest : List ℕ)
        → path.new.items ++ (if pending then unescaped (95 ∷ rest) else unescaped rest) ≡ path.old.items
        ++ unescaped (95 ∷ b ∷ rest)) }
{
    if b == b'1' {
        path.push(b'_')?;
        return Ok(false);
    }
    path.push(b'/')?;
    if b == b'_' {
        return Ok(true);
    }
    path.push(b)?;
    Ok(false)
}

/// The path that an escaped one stands for.
fn unescape(alloc: Global, bytes: &[u8]) -> Result<Vec<u8>, AllocError>
    ensures { IfOk result (λ v. v.items ≡ unescaped bytes.now) }
{
    let mut path = Vec::new(alloc);
    let mut underscore = false;
    for b in bytes {
        if underscore {
            underscore = push_after_underscore(&mut path, *b)?;
        } else if *b == b'_' {
            underscore = true;
        } else {
            path.push(*b)?;
        }
    }
    if underscore {
        path.push(b'/')?;
    }
    Ok(path)
}

fn last_slash(path: &[u8]) -> Option<usize>
    ensures found { IfSome result (λ i. (i < length path.now) × (split_last path.now ≡ Some (take i path.now, drop (i + 1) path.now))) }
    ensures none { IfNone result (split_last path.now ≡ None) }
{
    let mut end = path.len();
    while end > 0 {
        end -= 1;
        if path[end] == b'/' {
            return Some(end);
        }
    }
    None
}

/// A native method: the class that declares it, with `/` between packages, and its name.
#[derive(Drop)]
pub struct Native {
    pub class: Vec<u8>,
    pub method: Vec<u8>,
}

/// The class and the method whose function has this name.
pub fn unmangle(alloc: Global, name: &[u8]) -> Result<Option<Native>, AllocError>
    ensures { IfOk result (λ o. option_map (λ n. (n.class.items, n.method.items)) o ≡ unmangle name.now) }
{
    if !is_mangled(name) {
        return Ok(None);
    }
    let path = unescape(alloc, &name[PREFIX.len()..])?;
    split(alloc, &path)
}

/// What comes before and after the last slash.
fn split(alloc: Global, path: &[u8]) -> Result<Option<Native>, AllocError>
    ensures { IfOk result (λ o. option_map (λ n. (n.class.items, n.method.items)) o ≡ split_last path.now) }
{
    let Some(at) = last_slash(path) else {
        return Ok(None);
    };
    let class = Vec::from_slice(alloc, &path[..at])?;
    let method = Vec::from_slice(alloc, &path[at + 1..])?;
    Ok(Some(Native { class, method }))
}
