//! The laws of sizes and of their order.

ghost use Rattle.qm_sizes.specs.Surds.{OrderLaw, OneOrderLaw};
ghost use Rattle.qm_sizes.specs.Sizes.{SizeLaw};

/// The test by signs and squares is an order of the numbers `A + B root2` in which root2 is positive: of each number but 0 it or its
/// negative is positive, not both, and sums and products of positive numbers are.
pub fn order_law()
    ensures { OrderLaw }
{}

/// Every order of the numbers `A + B root2` in which root2 is positive, as that of the reals, is the one that signs and squares tell.
pub fn one_order_law()
    ensures { OneOrderLaw }
{}

/// The size of a number is the number times its conjugate, and its part at root2 is at most the other in absolute value.
pub fn size_law()
    ensures { SizeLaw }
{}
