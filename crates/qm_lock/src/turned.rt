//! Values that take part in turns.
ghost use Rattle.std.specs.Prelude.{ℕ, List};

/// A value that stands for an opening and a list of numbers. A turn keeps the opening; it keeps the list, or adds one number at its end.
pub trait Turned {
    /// What an opening is.
    ghost Opening: { Type 0 };

    ghost opening: { Self → Opening };

    ghost turns: { Self → List ℕ };
}
