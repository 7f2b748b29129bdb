//! The variables of a call in progress.

ghost use Rattle.std.specs.Prelude.{◌≡◌, ◌≤◌, ◌<◌, ◌++◌, [], true, false, IfOk, IfSome, Option, Some, is_some, slice_get, drop, flat_map, length, map, pos, replicate, slice_set};
ghost use Rattle.std.specs.Option.{option_map};
ghost use Rattle.base.specs.Bytes.{lookup};
ghost use Rattle.std.specs.Str.{bytes_eq};
ghost use Rattle.indexmap.specs.IndexMap.{get_by, index_map_len, index_of_by, values};
ghost use Rattle.semantics.specs.CallEffects.{begun_with, copied_elements, freed, local_array};
ghost use Rattle.semantics.specs.CallStep.{element_type};
ghost use Rattle.semantics.specs.Heap.{number_in};
ghost use Rattle.semantics.specs.Value.{convert};
ghost use Rattle.semantics.specs.Variable.{LocalRef, Scalar, assign, change, copied_length, viewed};
ghost use Rattle.semantics.specs.Views.{name_of, names_of, object_value_view};
ghost use Rattle.replay_terms.specs.declared.variable.Content.TheVariants as content;
ghost use Rattle.replay_terms.specs.Views.{Takes, WritesContent, WritesElement, content_view, count_viewed, had, held_number, variables_view, viewed_by};

use crate::buffers::{BuffersInUse, NOTHING, exchanged, taken};
use crate::method::MethodId;
use crate::name::is_same;
use crate::value::convert;
use classes::fields::FieldId;
use indexmap::IndexMap;
use semantics::{Level, ObjectId, ObjectValue, Value};
use std::alloc::{AllocError, Global};
use std::marker::Model;
use syntax::{ElementType, Name};

/// What a variable holds.
#[derive(Drop)]
pub enum Content<'a> {
    Number(Value),
    /// A local reference: its level, and NULL or an object, by its name.
    Reference {
        level: Level,
        object: Option<ObjectId>,
    },
    /// A field ID: NULL, or a field or static.
    Field(Option<FieldId<'a>>),
    /// A method ID: NULL, or a method.
    Method(Option<MethodId<'a>>),
    /// A buffer that is NULL.
    Buffer(ElementType),
    /// A buffer with a copy of the numbers of an array or a string, and its name.
    Copy {
        element: ElementType,
        object: ObjectId,
        numbers: Vec<i32>,
    },
    /// A buffer that shows an array or a string itself, by its name.
    View {
        element: ElementType,
        object: ObjectId,
    },
    /// A local array.
    Array(ElementType, Vec<i32>),
}

/// The variables of a call in progress, in the order in which they came to be, seen as a list of what each holds by its name. A
/// name is found in constant time.
pub struct Variables<'a> {
    contents: IndexMap<&'a [u8], Content<'a>>,
    /// What its buffers take.
    in_use: BuffersInUse,
}

impl Drop for Variables<'_> {
    fn drop(self) {
        let Variables {
            contents,
            in_use: _,
        } = self;
        drop(contents);
    }
}

impl<'a> Model for Variables<'a> {
    ghost use Rattle.std.specs.Coded.{codes};
    ghost use Rattle.syntax.specs.contracts.unit.Function as function;
    ghost use Rattle.replay_terms.specs.Views.{Contents, Takes, by_name};

    ghost Value = { Contents };

    ghost coded = { Prim.hlevel (codes, function.the_row.coded) };

    ghost view = { λ v. by_name v.contents.entries };

    ghost invariant = { λ v. Takes (by_name v.contents.entries) v.in_use };
}

impl<'a> Variables<'a> {
    /// No variables.
    pub fn new(alloc: Global) -> Variables<'a>
        ensures { result ≡ [] }
    {
        Variables {
            contents: IndexMap::new(alloc),
            in_use: NOTHING,
        }
    }

    /// What its buffers take.
    pub fn in_use(&self) -> BuffersInUse
        ensures { Takes self.now result }
    {
        self.in_use
    }

    /// What the variable of this name holds.
    pub fn content_of(&self, name: &Name) -> Option<&Content<'a>>
        ensures { option_map (λ c. content_view c.now) result ≡ lookup name.now (variables_view self.now) }
    {
        self.content_named(name.as_bytes())
    }

    /// What the variable of this name holds, which may be none of the unit's names.
    pub fn content_named(&self, name: &[u8]) -> Option<&Content<'a>>
        ensures { option_map (λ c. content_view c.now) result ≡ lookup name.now (variables_view self.now) }
    {
        match place_of(&self.contents, name) {
            Some(place) => Some(&self.contents[place]),
            None => None,
        }
    }

    /// Sets the variable of this name. Where there is none, it is new and comes last. There is no memory for buffers
    /// that take more than there is, as in no accepted program.
    pub fn set(&mut self, name: &'a Name, content: Content<'a>) -> Result<(), AllocError>
        ensures { IfOk result (λ _. variables_view self.new ≡ assign name.now (content_view content.entry) (variables_view self.old)) }
    {
        self.set_named(name.as_bytes(), content)
    }

    /// The same with a number. Most variables that are set hold one, and go on taking nothing.
    pub fn set_number(&mut self, name: &'a Name, value: Value) -> Result<(), AllocError>
        ensures { IfOk result (λ _. variables_view self.new ≡ assign name.now (Scalar value) (variables_view self.old)) }
    {
        let name = name.as_bytes();
        let Some(place) = place_of(&self.contents, name) else {
            return self.insert(name, Content::Number(value));
        };
        if put_number(&mut self.contents[place], value) {
            return Ok(());
        }
        self.set_named(name, Content::Number(value))
    }

    /// The same with a local reference of this level.
    pub fn set_reference(
        &mut self,
        name: &'a Name,
        level: Level,
        object: Option<ObjectId>,
    ) -> Result<(), AllocError>
        ensures { IfOk result (λ _. variables_view self.new ≡ assign name.now (LocalRef level.number (name_of object)) (variables_view self.old)) }
    {
        let name = name.as_bytes();
        let Some(place) = place_of(&self.contents, name) else {
            return self.insert(name, Content::Reference { level, object });
        };
        if put_reference(&mut self.contents[place], level, object) {
            return Ok(());
        }
        self.set_named(name, Content::Reference { level, object })
    }

    /// Sets the variable of this name, which may be none of the unit's names. It is as with `set`.
    pub fn set_named(&mut self, name: &'a [u8], content: Content<'a>) -> Result<(), AllocError>
        ensures { IfOk result (λ _. variables_view self.new ≡ assign name.now (content_view content.entry) (variables_view self.old)) }
    {
        let Some(place) = place_of(&self.contents, name) else {
            return self.insert(name, content);
        };
        let old = taken(&self.contents[place]);
        let Some(in_use) = exchanged(self.in_use, old, taken(&content)) else {
            return Err(AllocError);
        };
        put_content(&mut self.contents[place], content);
        self.in_use = in_use;
        Ok(())
    }

    /// The same of a name that may be new: it is looked up again as it is put into the table.
    #[inline(never)]
    fn insert(&mut self, name: &'a [u8], content: Content<'a>) -> Result<(), AllocError>
        ensures { IfOk result (λ _. variables_view self.new ≡ assign name.now (content_view content.entry) (variables_view self.old)) }
    {
        let old = self.taken_by(name);
        let Some(in_use) = exchanged(self.in_use, old, taken(&content)) else {
            return Err(AllocError);
        };
        if self.contents.insert(name, content).is_err() {
            return Err(AllocError);
        }
        self.in_use = in_use;
        Ok(())
    }

    /// What the variable of this name takes, if there is one.
    fn taken_by(&self, name: &[u8]) -> BuffersInUse
        ensures copied { result.copied ≡ had copied_length (lookup name.now (variables_view self.now)) }
        ensures views { result.views ≡ had count_viewed (lookup name.now (variables_view self.now)) }
    {
        match self.content_named(name) {
            Some(content) => taken(content),
            None => NOTHING,
        }
    }

    /// Writes an element of what has this name: of its numbers, if it is an array or a copy.
    pub fn write(&mut self, name: &Name, index: usize, number: i32) -> Written
        ensures { WritesElement (variables_view self.old) name.now index number result (variables_view self.new) }
    {
        match place_of(&self.contents, name.as_bytes()) {
            Some(place) => write_content(&mut self.contents[place], index, number),
            None => Written::Nothing,
        }
    }

    /// Gives up the buffer of this name, if it is one.
    pub fn free(&mut self, name: &[u8])
        ensures { variables_view self.new ≡ change name.now freed (variables_view self.old) }
    {
        if let Some(place) = place_of(&self.contents, name) {
            let old = free_content(&mut self.contents[place]);
            self.in_use.copied -= old.copied;
            self.in_use.views -= old.views;
        }
    }

    /// The elements of the copy of this name; none where there is no such buffer.
    pub fn copy_named(&self, name: &[u8]) -> &[i32]
        ensures { result.now ≡ copied_elements (lookup name.now (variables_view self.now)) }
    {
        match self.content_named(name) {
            Some(content) => copy_of(content),
            None => &[],
        }
    }

    /// The element type of the buffer of this name; `jint` where there is none.
    pub fn element_type(&self, name: &[u8]) -> ElementType
        ensures { result ≡ element_type (lookup name.now (variables_view self.now)) }
    {
        match self.content_named(name) {
            Some(
                Content::Buffer(kind)
                | Content::Copy { element: kind, .. }
                | Content::View { element: kind, .. },
            ) => { *kind }
            _ => ElementType::Int,
        }
    }

    /// Adds the names of the objects that buffers show to others, in the order of the variables. The cost goes by the variables.
    pub fn add_viewed(&self, names: &mut Vec<ObjectId>) -> Result<(), AllocError>
        ensures { IfOk result (λ _. names_of names.new.items ≡ names_of names.old.items ++ flat_map (λ v. viewed v.1) (variables_view self.now)) }
    {
        add_viewed(&self.contents, names)
    }

    /// The numbers of the local array of this name; none where there is no such array.
    pub fn array_named(&self, name: &[u8]) -> &[i32]
        ensures { result.now ≡ local_array (lookup name.now (variables_view self.now)) }
    {
        match self.content_named(name) {
            Some(content) => array_of(content),
            None => &[],
        }
    }

    /// Lets the local array of this name, if there is one, begin with the numbers of these values. The cost goes by the values.
    pub fn begin_array(&mut self, name: &[u8], values: &[ObjectValue])
        requires { length values.now ≤ length (local_array (lookup name.now (variables_view self.old))) }
        ensures { variables_view self.new ≡ change name.now (begun_with (map held_number values.now)) (variables_view self.old) }
    {
        if let Some(place) = place_of(&self.contents, name) {
            begin_content(&mut self.contents[place], values);
        }
    }
}

/// How many variables are compared with a name before it is looked up by its hash.
const COMPARED: usize = 8;

/// How many bytes a name has at most that is compared byte by byte; a longer one is looked up by its hash.
const SHORT: usize = 16;

/// The place of the variable of this name. The first few are compared with a short name at once, since most calls have no more.
fn place_of(contents: &IndexMap<&[u8], Content<'_>>, name: &[u8]) -> Option<usize>
    ensures index { result ≡ index_of_by (λ k. bytes_eq name.now k.now) contents.now }
    ensures found { is_some result ≡ is_some (get_by (λ k. bytes_eq name.now k.now) contents.now) }
    ensures within { IfSome result (λ i. i < index_map_len contents.now) }
    ensures value { IfSome result (λ i. slice_get (values contents.now) i ≡ get_by (λ k. bytes_eq name.now k.now) contents.now) }
{
    if name.len() > SHORT {
        return place_by_hash(contents, name);
    }
    for place in 0..contents.len().min(COMPARED) {
        if let Some((other, _)) = contents.get_index(place) {
            if is_same(name, other) {
                return Some(place);
            }
        }
    }
    place_by_hash(contents, name)
}

/// The same, by its hash. A function of its own, so that nothing is kept over a call while names are compared.
#[inline(never)]
fn place_by_hash(contents: &IndexMap<&[u8], Content<'_>>, name: &[u8]) -> Option<usize>
    ensures index { result ≡ index_of_by (λ k. bytes_eq name.now k.now) contents.now }
    ensures found { is_some result ≡ is_some (get_by (λ k. bytes_eq name.now k.now) contents.now) }
    ensures within { IfSome result (λ i. i < index_map_len contents.now) }
    ensures value { IfSome result (λ i. slice_get (values contents.now) i ≡ get_by (λ k. bytes_eq name.now k.now) contents.now) }
{
    contents.get_index_of(name)
}

/// Puts a number in the place of another; false where there is none.
#[inline]
fn put_number(place: &mut Content<'_>, value: Value) -> bool
    ensures done { (result ≡ true) → place.new ≡ content.Number value }
    ensures taken { (result ≡ true) → (old : Value) × (place.old ≡ content.Number old) }
    ensures other { (result ≡ false) → place.new ≡ place.old }
{
    match place {
        Content::Number(old) => {
            *old = value;
            true
        }
        _ => false,
    }
}

/// Puts a local reference in the place of another; false where there is none.
#[inline]
fn put_reference(place: &mut Content<'_>, to_level: Level, to_object: Option<ObjectId>) -> bool
    ensures done { (result ≡ true) → place.new ≡ content.Reference to_level to_object }
    ensures taken { (result ≡ true) → (l : Level) × (o : Option ObjectId) × (place.old ≡ content.Reference l o) }
    ensures other { (result ≡ false) → place.new ≡ place.old }
{
    match place {
        Content::Reference { level, object } => {
            *level = to_level;
            *object = to_object;
            true
        }
        _ => false,
    }
}

/// Puts what a variable holds in the place of what it held.
fn put_content<'a>(place: &mut Content<'a>, content: Content<'a>)
    ensures { place.new ≡ content.entry }
{
    *place = content;
}

/// The number of a value; 0 for a reference.
pub fn held_number(value: ObjectValue) -> i32
    ensures { result ≡ number_in (object_value_view value) }
{
    match value {
        ObjectValue::Number(number) => number,
        ObjectValue::Reference(_) => 0,
    }
}

/// The numbers of a local array; none where it is something else.
fn array_of<'c>(content: &'c Content<'_>) -> &'c [i32]
    ensures { result.now ≡ local_array (Some (content_view content.now)) }
{
    match content {
        Content::Array(_, numbers) => numbers.as_slice(),
        Content::Number(_) | Content::Reference { .. } => &[],
        Content::Field(_) | Content::Method(_) => &[],
        Content::Buffer(_) | Content::Copy { .. } | Content::View { .. } => &[],
    }
}

/// The elements of a copy; none where it is something else.
fn copy_of<'c>(content: &'c Content<'_>) -> &'c [i32]
    ensures { result.now ≡ copied_elements (Some (content_view content.now)) }
{
    match content {
        Content::Copy { numbers, .. } => numbers.as_slice(),
        Content::Number(_) | Content::Reference { .. } => &[],
        Content::Field(_) | Content::Method(_) => &[],
        Content::Buffer(_) | Content::View { .. } | Content::Array(_, _) => &[],
    }
}

/// Lets an array begin with the numbers of these values.
fn begin(numbers: &mut [i32], values: &[ObjectValue])
    requires { length values.now ≤ length numbers.old }
    ensures { numbers.new ≡ map held_number values.now ++ drop (length values.now) numbers.old }
{
    for (place, value) in values.iter().enumerate() {
        numbers[place] = held_number(*value);
    }
}

/// Lets what a variable holds, if it is a local array, begin with the numbers of these values.
fn begin_content(content: &mut Content<'_>, values: &[ObjectValue])
    requires { length values.now ≤ length (local_array (Some (content_view content.old))) }
    ensures { content_view content.new ≡ begun_with (map held_number values.now) (content_view content.old) }
{
    match content {
        Content::Array(_, numbers) => begin(numbers, values),
        Content::Number(_) | Content::Reference { .. } => {}
        Content::Field(_) | Content::Method(_) => {}
        Content::Buffer(_) | Content::Copy { .. } | Content::View { .. } => {}
    }
}

/// Adds the name of the object that a buffer shows.
fn push_viewed(names: &mut Vec<ObjectId>, content: &Content<'_>) -> Result<(), AllocError>
    ensures { IfOk result (λ _. names_of names.new.items ≡ names_of names.old.items ++ viewed (content_view content.now)) }
{
    match content {
        Content::View { object, .. } => {
            names.push(*object)?;
            Ok(())
        }
        Content::Number(_) | Content::Reference { .. } => Ok(()),
        Content::Field(_) | Content::Method(_) => Ok(()),
        Content::Buffer(_) | Content::Copy { .. } | Content::Array(_, _) => Ok(()),
    }
}

/// Adds the names of the objects that variables show.
fn add_viewed(
    contents: &IndexMap<&[u8], Content<'_>>,
    names: &mut Vec<ObjectId>,
) -> Result<(), AllocError>
    ensures { IfOk result (λ _. names_of names.new.items ≡ names_of names.old.items ++ flat_map viewed_by (values contents.now)) }
{
    for place in 0..contents.len() {
        push_viewed(names, &contents[place])?;
    }
    Ok(())
}

/// `size` zeros.
pub fn zeros(alloc: Global, size: u32) -> Result<Vec<i32>, AllocError>
    ensures { IfOk result (λ numbers. numbers.items ≡ replicate size (pos 0)) }
{
    let mut numbers = Vec::new(alloc);
    numbers.resize(size as usize, 0)?;
    Ok(numbers)
}

/// Writes an element that is there, converted to its type.
fn write(kind: ElementType, numbers: &mut [i32], index: usize, number: i32)
    ensures { numbers.new ≡ slice_set numbers.old index (convert kind number) }
{
    if index < numbers.len() {
        numbers[index] = convert(kind, number);
    }
}

/// What became of an element that was to be written.
#[derive(Clone, Copy)]
pub enum Written {
    /// The element was written.
    Done,
    /// This number, converted to its type, is to be written into the object of this name.
    Object { object: ObjectId, number: i32 },
    /// There are no elements.
    Nothing,
}

/// Writes an element of what a variable holds.
fn write_content(content: &mut Content<'_>, index: usize, number: i32) -> Written
    ensures { WritesContent (content_view content.old) index number result (content_view content.new) }
{
    match content {
        Content::Array(kind, numbers) => {
            write(*kind, numbers, index, number);
            Written::Done
        }
        Content::Copy {
            element: kind,
            numbers,
            ..
        } => {
            write(*kind, numbers, index, number);
            Written::Done
        }
        Content::View {
            element: kind,
            object,
        } => Written::Object {
            object: *object,
            number: convert(*kind, number),
        },
        Content::Number(_) | Content::Reference { .. } => Written::Nothing,
        Content::Field(_) | Content::Method(_) => Written::Nothing,
        Content::Buffer(_) => Written::Nothing,
    }
}

/// Gives up a buffer, if it is one, and tells what it took.
fn free_content(content: &mut Content<'_>) -> BuffersInUse
    ensures view { content_view content.new ≡ freed (content_view content.old) }
    ensures copied { result.copied ≡ copied_length (content_view content.old) }
    ensures views { result.views ≡ count_viewed (content_view content.old) }
{
    let old = taken(content);
    match content {
        Content::Copy { element: kind, .. } | Content::View { element: kind, .. } => *content =
            Content::Buffer(*kind),
        Content::Number(_) | Content::Reference { .. } => {}
        Content::Field(_) | Content::Method(_) => {}
        Content::Buffer(_) | Content::Array(_, _) => {}
    }
    old
}
