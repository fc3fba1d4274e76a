//! The laws of reading, for any text.

ghost use Rattle.qm_expand.specs.Laws.{OneReading, SameSizes, SomeReading};

/// A text reads as one list of programs, or is refused for one reason on one line, never both.
pub fn one_reading()
    ensures { OneReading }
{}

/// A text of at most [`qm_limits::MOST_BYTES`] bytes reads as programs, or is refused.
pub fn some_reading()
    ensures { SomeReading }
{}

/// A text of version 2 that gives all ranks as many slots and buffers of one size, that has none of the words `unreduce`, `treecast` and
/// `untreecast`, and that is otherwise a text of version 1, is read as that text's programs with the version 2.
pub fn same_sizes_law()
    ensures { SameSizes }
{}
