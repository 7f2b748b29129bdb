//! With what a run begins.

ghost use Rattle.std.specs.Prelude.{◌≡◌, map};
ghost use Rattle.world_values.specs.SoundWorlds.{IsSound};
ghost use Rattle.world_values.specs.Views.{object_value_view};

use crate::object::Object;
use classes::table::ClassTable;
use semantics::ObjectValue;
use std::marker::Model;

/// A call that a thread makes.
pub struct Call {
    function: Vec<u8>,
    line: usize,
    arguments: Vec<ObjectValue>,
}

impl Drop for Call {
    fn drop(self) {
        let Call {
            function,
            line: _,
            arguments,
        } = self;
        drop(function);
        drop(arguments);
    }
}

impl Model for Call {
    ghost use Rattle.std.specs.Prelude.{map};
    ghost use Rattle.semantics.specs.World.{Invocation};
    ghost use Rattle.world_values.specs.Views.{object_value_view};

    ghost Value = { Invocation };

    ghost view = { λ c. record { line = c.line; function = c.function.items; arguments = map object_value_view c.arguments.items } };
}

impl Call {
    /// A call of the function of this name, on this line of the world.
    pub fn new(function: Vec<u8>, line: usize, arguments: Vec<ObjectValue>) -> Call
        ensures { result ≡ record { line = line; function = function.items; arguments = map object_value_view arguments.items } }
    {
        Call {
            function,
            line,
            arguments,
        }
    }

    /// The function's name.
    pub fn function(&self) -> &[u8]
        ensures { result.now ≡ self.now.function }
    {
        &self.function
    }

    /// The line of the world at which the call is.
    pub fn line(&self) -> usize
        ensures { result ≡ self.now.line }
    {
        self.line
    }

    /// What the function is given after the class, in order.
    pub fn arguments(&self) -> &[ObjectValue]
        ensures { map object_value_view result.now ≡ self.now.arguments }
    {
        &self.arguments
    }
}

/// The heap's cells, the classes, the objects, and what each thread calls: seen as the world of the definitions. The objects
/// fit their classes and the heap, and each thread has a call, which is given what is there.
pub struct World {
    heap_line: usize,
    methods: bool,
    cells: u32,
    classes: ClassTable,
    objects: Vec<Object>,
    threads: Vec<Vec<Call>>,
}

impl Drop for World {
    fn drop(self) {
        let World {
            heap_line: _,
            methods: _,
            cells: _,
            classes,
            objects,
            threads,
        } = self;
        drop(classes);
        drop(objects);
        drop(threads);
    }
}

impl Model for World {
    ghost use Rattle.std.specs.Prelude.{map};
    ghost use Rattle.semantics.specs.World.{World as SourceWorld};
    ghost use Rattle.world_values.specs.SoundWorlds.{IsSound};

    ghost Value = { SourceWorld };

    ghost view = { λ w. record {
      heap_line = w.heap_line;
      methods = w.methods;
      cells = w.cells;
      classes = w.classes;
      objects = w.objects.items;
      threads = map (λ t. t.items) w.threads.items;
    } };

    ghost invariant = { λ w. IsSound (record {
      heap_line = w.heap_line;
      methods = w.methods;
      cells = w.cells;
      classes = w.classes;
      objects = w.objects.items;
      threads = map (λ t. t.items) w.threads.items;
    }) };
}

impl World {
    /// The world of these parts.
    pub fn new(
        heap_line: usize,
        methods: bool,
        cells: u32,
        classes: ClassTable,
        objects: Vec<Object>,
        threads: Vec<Vec<Call>>,
    ) -> World
        requires { IsSound (record {
          heap_line = heap_line;
          methods = methods;
          cells = cells;
          classes = classes;
          objects = objects.items;
          threads = map (λ t. t.items) threads.items;
        }) }
        ensures { result ≡ record {
          heap_line = heap_line;
          methods = methods;
          cells = cells;
          classes = classes;
          objects = objects.items;
          threads = map (λ t. t.items) threads.items;
        } }
    {
        World {
            heap_line,
            methods,
            cells,
            classes,
            objects,
            threads,
        }
    }

    /// The line of the world that tells the heap.
    pub fn heap_line(&self) -> usize
        ensures { result ≡ self.now.heap_line }
    {
        self.heap_line
    }

    /// Whether the world allows methods: it has java/lang/NoSuchMethodError then.
    pub fn has_methods(&self) -> bool
        ensures methods { result ≡ self.now.methods }
        ensures sound { IsSound self.now }
    {
        self.methods
    }

    /// How many cells the heap has.
    pub fn cells(&self) -> u32
        ensures cells { result ≡ self.now.cells }
        ensures sound { IsSound self.now }
    {
        self.cells
    }

    /// The built-in classes and the world's.
    pub fn classes(&self) -> &ClassTable
        ensures classes { result.now ≡ self.now.classes }
        ensures sound { IsSound self.now }
    {
        &self.classes
    }

    /// The objects, in the order in which they are made at load, after the class objects and the OutOfMemoryError object.
    pub fn objects(&self) -> &[Object]
        ensures objects { result.now ≡ self.now.objects }
        ensures sound { IsSound self.now }
    {
        &self.objects
    }

    /// What each thread calls, in order.
    pub fn threads(&self) -> &[Vec<Call>]
        ensures calls { map (λ t. t.items) result.now ≡ self.now.threads }
        ensures sound { IsSound self.now }
    {
        &self.threads
    }
}
