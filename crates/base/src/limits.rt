//! The limits of programs, worlds and runs. The definitions have the same numbers by the same names, in specs/Limits.

/// The most functions of a program.
pub const MOST_FUNCTIONS: usize = 256;

/// The most statics of a program.
pub const MOST_STATICS: usize = 256;

/// The most names of a function: its parameters, but for the environment, and all that it declares.
pub const MOST_NAMES: usize = 256;

/// The most elements of an array that is a variable.
pub const MOST_ELEMENTS: u32 = 1_024;

/// The most steps of a function, counted on its tree.
pub const MOST_STEPS: usize = 65_535;

/// The most classes of a table.
pub const MOST_CLASSES: usize = 256;

/// The most fields and statics that a class declares.
pub const MOST_FIELDS: usize = 64;

/// The fewest cells of a heap.
pub const LEAST_CELLS: u32 = 512;

/// The most cells of a heap.
pub const MOST_CELLS: u32 = 1_048_576;

/// The most objects that a world names.
pub const MOST_OBJECTS: usize = 65_536;

/// The most threads of a world.
pub const MOST_THREADS: usize = 8;

/// The most calls of a thread.
pub const MOST_CALLS: usize = 256;

/// The most steps of a journal, the most of its clearings, and the most turns of a schedule.
pub const MOST_ENTRIES: usize = 1_000_000;

/// The greatest name of an object that a journal's text may have.
pub const MOST_NAME: u64 = 4_294_967_295;

/// The most calls of a thread that are made from one another: the one in progress with its callers.
pub const MOST_ACTIVATIONS: usize = 64;

/// The most arguments of a call of a method, after its class and its method ID.
pub const MOST_FURTHER: usize = 16;

/// The most local references for which a thread's frames have capacity, all together.
pub const MOST_REFERENCES: u32 = 1_024;

/// The most elements of all copies that are held at a time.
pub const MOST_COPIED: usize = 65_536;

/// The most views that are held at a time.
pub const MOST_VIEWS: u32 = 64;

/// How often a thread can have entered a monitor that it owns.
pub const MOST_MONITOR_ENTRIES: u8 = 255;
