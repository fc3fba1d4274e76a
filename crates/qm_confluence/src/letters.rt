//! The letters of an ideal run, one after another.

ghost use Rattle.qm_confluence.specs.Letters.{GoodLettersLaw};

/// In an ideal run of programs without a fault each letter can be done by a store that has done those before it. It is no pair, its
/// operands are distinct, none of them was taken away by an earlier letter, and the new name of a `Rename` is in no earlier letter.
pub fn good_letters_law()
    ensures { GoodLettersLaw }
{}
